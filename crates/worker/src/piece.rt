//! How a drawn piece is settled: by a cut of another worker, or by a solve of its own.
ghost use Rattle.std.specs.Prelude.{◌≡◌, IfOk, IsTrue, OnOk, length};
ghost use Rattle.lpcc_case.specs.Pieces.{IsPiece};
ghost use Rattle.cut_words.specs.Words.{item_length};
ghost use Rattle.best.specs.Passes.{IsPassOf};
ghost use Rattle.cut_pool.specs.Reaches.{HasCaughtUp, ReachView};
ghost use Rattle.desk.specs.Settling.{HasReadAll};
ghost use Rattle.settling.specs.Known.{IsTrueKnowledge};
ghost use Rattle.worker.specs.Reading.{IsBarring, IsReading};
ghost use Rattle.worker.specs.Turns.{CutPasses, IsDrawn, IsOwn, IsReachOf, IsReady, MaySettleBy};

use crate::gate::{Gate, Mark};
use crate::incumbent::exchange_best;
use crate::noting::Barring;
use crate::publishing::publish_outcome;
use crate::searching::{hear, search};
use best::{Best, BestPass};
use cut_pool::Reach;
use desk::Desk;
use lpcc_case::{Case, Point};
use play::{Options, Outcome, Ticket};
use settling::{Knowledge, outcome_of};
use std::alloc::{AllocError, Global};
use std::sync::{Mutex, Wait};

/// Settles a ticket by another worker's cut.
#[tactic(auto, using(crate::proofs::OwnLaws::other_settles))]
fn by_other(
    alloc: Global,
    case: &Case,
    options: &Options,
    known: &Knowledge,
    reach: &Reach,
    ticket: &Ticket,
    barring: Barring,
) -> Result<Outcome, AllocError>
    requires reach { IsReachOf case.now options.now ticket.now.worker reach.now }
    requires barring { IsBarring case.now ticket.now.piece known.now.incumbent reach.now barring }
    ensures { IfOk result (MaySettleBy case.now options.now ticket.now reach.now) }
{
    let Barring { lane, place, cut } = barring;
    let best = known.copy_incumbent(alloc)?;
    Ok(Outcome::Barred {
        lane,
        place,
        cut,
        best,
    })
}

/// Whether the outcome is of the worker's own, and not by another worker's cut.
fn is_own(outcome: &Outcome) -> bool
    ensures { IsTrue result → IsOwn outcome.now }
{
    match outcome {
        Outcome::Barred { .. } => false,
        _ => true,
    }
}

/// The outcome of a solve of one's own.
fn by_own(
    alloc: Global,
    case: &Case,
    options: &Options,
    known: &mut Knowledge,
    ticket: &Ticket,
) -> Result<Outcome, AllocError>
    requires piece { IsPiece case.now ticket.now.piece }
    requires known { IsTrueKnowledge case.now known.old }
    ensures known { IsTrueKnowledge case.now known.new }
    ensures passes { IfOk result (CutPasses case.now) }
    ensures settles { IfOk result (λ what. (r : ReachView) → HasReadAll r ticket.now.piece → MaySettleBy case.now options.now ticket.now r what) }
{
    let outcome = outcome_of(alloc, case, options, known, ticket)?;
    if !is_own(&outcome) {
        return Err(AllocError);
    }
    Ok(outcome)
}

/// Solves the piece of a ticket, and publishes the cut. The best of all workers is asked before and
/// told behind the solve.
fn solve<R: Wait, G: Gate>(
    rt: &R,
    alloc: Global,
    case: &Case,
    options: &Options,
    best: &Best<Point>,
    pass: &mut BestPass<Point>,
    known: &mut Knowledge,
    reach: &mut Reach,
    words: &mut [u64],
    ticket: &Ticket,
    gate: &G,
) -> Result<Outcome, AllocError>
    requires pass { IsPassOf best.now pass.old }
    requires known { IsTrueKnowledge case.now known.old }
    requires piece { IsPiece case.now ticket.now.piece }
    requires reach { IsReachOf case.now options.now ticket.now.worker reach.old }
    requires read { HasReadAll reach.old ticket.now.piece }
    requires length { length words.old ≡ item_length case.now }
    ensures pass { IsPassOf best.now pass.new }
    ensures known { IsTrueKnowledge case.now known.new }
    ensures reach { IsReachOf case.now options.now ticket.now.worker reach.new }
    ensures length { length words.new ≡ length words.old }
    ensures settles { IfOk result (MaySettleBy case.now options.now ticket.now reach.new) }
{
    exchange_best(rt, alloc, case, best, pass, known)?;
    let outcome = by_own(alloc, case, options, known, ticket)?;
    exchange_best(rt, alloc, case, best, pass, known)?;
    if publish_outcome(case, reach, words, &outcome) {
        gate.pass(ticket.worker, Mark::Published, &ticket.piece);
    }
    Ok(outcome)
}

/// A cut of another worker that bars the piece of a ticket, if one is read before the piece is to be
/// solved.
#[tactic(auto, using(crate::proofs::OwnLaws::heard_none))]
fn find_barring<R: Wait>(
    rt: &R,
    alloc: Global,
    case: &Case,
    options: &Options,
    desk: &Mutex<Desk>,
    best: &Best<Point>,
    pass: &mut BestPass<Point>,
    known: &mut Knowledge,
    reach: &mut Reach,
    words: &mut [u64],
    ticket: &Ticket,
) -> Result<Option<Barring>, AllocError>
    requires pass { IsPassOf best.now pass.old }
    requires known { IsTrueKnowledge case.now known.old }
    requires reach { IsReachOf case.now options.now ticket.now.worker reach.old }
    requires ready { IsReady reach.old }
    requires length { length words.old ≡ item_length case.now }
    ensures pass { IsPassOf best.now pass.new }
    ensures known { IsTrueKnowledge case.now known.new }
    ensures reach { IsReachOf case.now options.now ticket.now.worker reach.new }
    ensures length { length words.new ≡ length words.old }
    ensures reading { IfOk result (IsReading case.now ticket.now.piece known.new.incumbent reach.new) }
    ensures read { OnOk result (HasCaughtUp reach.new) }
{
    let heard = hear(rt, alloc, case, options, known, reach, words, ticket)?;
    if heard.is_some() {
        return Ok(heard);
    }
    search(
        rt, alloc, case, options, desk, best, pass, known, reach, words, ticket,
    )
}

/// How a ticket is to be settled: by a cut of another worker where one bars the piece, and else by
/// a solve.
pub fn outcome_for<R: Wait, G: Gate>(
    rt: &R,
    alloc: Global,
    case: &Case,
    options: &Options,
    desk: &Mutex<Desk>,
    best: &Best<Point>,
    pass: &mut BestPass<Point>,
    known: &mut Knowledge,
    reach: &mut Reach,
    words: &mut [u64],
    ticket: &Ticket,
    gate: &G,
) -> Result<Outcome, AllocError>
    requires pass { IsPassOf best.now pass.old }
    requires known { IsTrueKnowledge case.now known.old }
    requires reach { IsReachOf case.now options.now ticket.now.worker reach.old }
    requires drawn { IsDrawn case.now ticket.now.worker reach.old ticket.now }
    requires length { length words.old ≡ item_length case.now }
    ensures pass { IsPassOf best.now pass.new }
    ensures known { IsTrueKnowledge case.now known.new }
    ensures reach { IsReachOf case.now options.now ticket.now.worker reach.new }
    ensures length { length words.new ≡ length words.old }
    ensures settles { IfOk result (MaySettleBy case.now options.now ticket.now reach.new) }
{
    let read = find_barring(
        rt, alloc, case, options, desk, best, pass, known, reach, words, ticket,
    )?;
    match read {
        Some(barring) => {
            gate.pass(ticket.worker, Mark::Skipped, &ticket.piece);
            by_other(alloc, case, options, known, reach, ticket, barring)
        }
        None => solve(
            rt, alloc, case, options, best, pass, known, reach, words, ticket, gate,
        ),
    }
}
