//! A worker's turns, until there is nothing to do any more.
ghost use Rattle.std.specs.Prelude.{◌≡◌, IfOk, length};
ghost use Rattle.cut_words.specs.Words.{item_length};
ghost use Rattle.best.specs.Passes.{IsPassOf};
ghost use Rattle.settling.specs.Known.{IsTrueKnowledge};
ghost use Rattle.worker.specs.Turns.{IsDrawn, IsReachOf, MaySettleBy};

use crate::gate::{Gate, Mark};
use crate::locked::{Turn, settle, share_end, take_turn};
use crate::piece::outcome_for;
use best::{Best, BestPass};
use cut_pool::Reach;
use cut_words::item_length;
use desk::Desk;
use lpcc_case::{Case, Point};
use nogoods::Piece;
use play::{Options, Outcome, Ticket};
use settling::Knowledge;
use std::alloc::{AllocError, Global};
use std::sync::{Condvar, Mutex, Wait};

/// Leaves the desk, with a ticket or without one, and rings for the others.
fn leave<R: Wait>(rt: &R, desk: &Mutex<Desk>, bell: &Condvar, ticket: Option<Ticket>) {
    let mut held = desk.lock(rt);
    held.abandon(ticket);
    drop(held);
    bell.notify_all();
}

/// Settles a ticket, and rings for the others. False where the desk was abandoned.
fn hand_in<R: Wait>(
    rt: &R,
    alloc: Global,
    case: &Case,
    options: &Options,
    desk: &Mutex<Desk>,
    bell: &Condvar,
    reach: &Reach,
    ticket: Ticket,
    outcome: Outcome,
) -> bool
    requires { MaySettleBy case.now options.now ticket reach.now outcome }
{
    let mut held = desk.lock(rt);
    let settled = settle(alloc, case, options, &mut held, reach, ticket, outcome);
    drop(held);
    bell.notify_all();
    settled
}

/// Finds out about a drawn piece, with a copy of it for the gate.
fn find_out<R: Wait, G: Gate>(
    rt: &R,
    alloc: Global,
    case: &Case,
    options: &Options,
    desk: &Mutex<Desk>,
    best: &Best<Point>,
    pass: &mut BestPass<Point>,
    known: &mut Knowledge,
    reach: &mut Reach,
    words: &mut [u64],
    ticket: &Ticket,
    gate: &G,
) -> Result<(Piece, Outcome), AllocError>
    requires pass { IsPassOf best.now pass.old }
    requires known { IsTrueKnowledge case.now known.old }
    requires reach { IsReachOf case.now options.now ticket.now.worker reach.old }
    requires drawn { IsDrawn case.now ticket.now.worker reach.old ticket.now }
    requires length { length words.old ≡ item_length case.now }
    ensures pass { IsPassOf best.now pass.new }
    ensures known { IsTrueKnowledge case.now known.new }
    ensures reach { IsReachOf case.now options.now ticket.now.worker reach.new }
    ensures length { length words.new ≡ length words.old }
    ensures settles { IfOk result (λ r. MaySettleBy case.now options.now ticket.now reach.new r.1) }
{
    gate.pass(ticket.worker, Mark::Drawn, &ticket.piece);
    let piece = ticket.piece.copy(alloc)?;
    let outcome = outcome_for(
        rt, alloc, case, options, desk, best, pass, known, reach, words, ticket, gate,
    )?;
    Ok((piece, outcome))
}

/// Finds out about a drawn piece, and settles it. False where the desk was abandoned.
fn do_piece<R: Wait, G: Gate>(
    rt: &R,
    alloc: Global,
    case: &Case,
    options: &Options,
    desk: &Mutex<Desk>,
    bell: &Condvar,
    best: &Best<Point>,
    pass: &mut BestPass<Point>,
    known: &mut Knowledge,
    reach: &mut Reach,
    words: &mut [u64],
    ticket: Ticket,
    gate: &G,
) -> bool
    requires pass { IsPassOf best.now pass.old }
    requires known { IsTrueKnowledge case.now known.old }
    requires reach { IsReachOf case.now options.now ticket.worker reach.old }
    requires drawn { IsDrawn case.now ticket.worker reach.old ticket }
    requires length { length words.old ≡ item_length case.now }
    ensures pass { IsPassOf best.now pass.new }
    ensures known { IsTrueKnowledge case.now known.new }
    ensures reach { IsReachOf case.now options.now ticket.worker reach.new }
    ensures length { length words.new ≡ length words.old }
{
    let worker = ticket.worker;
    let found = find_out(
        rt, alloc, case, options, desk, best, pass, known, reach, words, &ticket, gate,
    );
    let Ok((piece, outcome)) = found else {
        leave(rt, desk, bell, Some(ticket));
        return false;
    };
    if !hand_in(rt, alloc, case, options, desk, bell, reach, ticket, outcome) {
        return false;
    }
    gate.pass(worker, Mark::Settled, &piece);
    true
}

/// Takes turns until there are none any more, or the desk is left.
fn take_turns<R: Wait, G: Gate>(
    rt: &R,
    alloc: Global,
    case: &Case,
    desk: &Mutex<Desk>,
    bell: &Condvar,
    best: &Best<Point>,
    pass: &mut BestPass<Point>,
    reach: &mut Reach,
    worker: u32,
    options: &Options,
    words: &mut [u64],
    gate: &G,
)
    requires pass { IsPassOf best.now pass.old }
    requires reach { IsReachOf case.now options.now worker reach.old }
    requires length { length words.old ≡ item_length case.now }
    ensures pass { IsPassOf best.now pass.new }
    ensures reach { IsReachOf case.now options.now worker reach.new }
{
    let mut known = Knowledge::new(alloc, u64::from(worker));
    for _ in rt.forever() {
        let mut held = desk.lock(rt);
        match take_turn(alloc, case, options, &mut held, worker, reach) {
            Turn::Piece(ticket) => {
                share_end(&mut held, &mut known);
                drop(held);
                let goes_on = do_piece(
                    rt, alloc, case, options, desk, bell, best, pass, &mut known, reach, words,
                    ticket, gate,
                );
                if !goes_on {
                    return;
                }
            }
            Turn::Pause => {
                let _again = bell.wait(rt, held);
            }
            Turn::Over => {
                drop(held);
                bell.notify_all();
                return;
            }
        }
    }
    unreachable!()
}

/// Works for a run until the desk has no piece any more, or was abandoned. Each turn goes as follows.
///
/// 1. The reach is readied, and a piece is drawn. Where none is to be had now, the worker waits for
///    the bell.
/// 2. The lanes of all other workers are read to their end.
/// 3. Where a cut that was read bars the piece and is active, it settles the piece.
/// 4. Else a cut that the worker's search has settles the piece where one bars it and is active, or
///    the piece is solved. The best point is offered to the other workers, the cut is shrunk and
///    published.
/// 5. The ticket is settled, and the bell is rung for all who wait.
///
/// A desk that is not that of this run, or that does not know the worker's reach and ticket, is
/// abandoned, and so is the desk where memory is short. The ticket, if there is one, is handed back.
pub fn work<R: Wait, G: Gate + Sync>(
    rt: &R,
    alloc: Global,
    case: &Case,
    desk: &Mutex<Desk>,
    bell: &Condvar,
    best: &Best<Point>,
    pass: &mut BestPass<Point>,
    reach: &mut Reach,
    worker: u32,
    options: &Options,
    gate: &G,
)
    requires pass { IsPassOf best.now pass.old }
    requires number { reach.old.worker ≡ worker }
    requires case { reach.old.case ≡ case.now }
    ensures pass { IsPassOf best.now pass.new }
    ensures number { reach.new.worker ≡ worker }
    ensures case { reach.new.case ≡ case.now }
{
    let words = vec![in alloc; 0u64; item_length(case) as usize];
    let Ok(mut words) = words else {
        leave(rt, desk, bell, None);
        return;
    };
    if reach.lanes() != options.workers.number() as usize {
        leave(rt, desk, bell, None);
        return;
    }
    take_turns(
        rt, alloc, case, desk, bell, best, pass, reach, worker, options, &mut words, gate,
    );
}
