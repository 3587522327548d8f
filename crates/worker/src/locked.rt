//! What a worker does with the desk while it holds the lock. What is found under a lock is known by
//! its type alone, so each time the desk is asked first whether it is that of this run, and whether
//! the worker's reach and ticket are those that it knows.
ghost use Rattle.std.specs.Prelude.{◌≡◌, IsTrue, IfOk, OnOk, None, Some};
ghost use Rattle.std.specs.Option.{option_copied};
ghost use Rattle.desk.specs.Desks.{Fits, abandoned};
ghost use Rattle.desk.specs.Settling.{Settles};
ghost use Rattle.worker.specs.Turns.{IsDrawn, IsReachOf, IsReady, MaySettleBy, Takes};

use cut_pool::Reach;
use desk::{Desk, Draw};
use lpcc_case::Case;
use play::{Options, Outcome, Ticket};
use settling::Knowledge;
use std::alloc::{AllocError, Global};

/// What the desk gives a worker.
#[derive(Drop)]
pub enum Turn {
    /// A piece to be solved.
    Piece(Ticket),
    /// Nothing now.
    Pause,
    /// Nothing any more.
    Over,
}

/// Whether the desk is one of this case and these options, and of the worker's tickets in flight
/// there is none, or just this one.
fn is_known(
    case: &Case,
    options: &Options,
    desk: &Desk,
    worker: u32,
    reach: &Reach,
    ticket: Option<&Ticket>,
) -> bool
    ensures case { IsTrue result → desk.now.run.case_of ≡ case.now }
    ensures options { IsTrue result → desk.now.run.options ≡ options.now }
    ensures fits { IsTrue result → Fits desk.now worker reach.now (option_copied ticket.entry) }
{
    desk.is_for(case, options) && desk.fits(worker, reach, ticket)
}

/// Readies the worker's reach, and draws.
#[tactic(auto, using(crate::proofs::OwnLaws::readied, desk::proofs::DeskLaws::done_ends, desk::proofs::DeskLaws::left_ends))]
fn draw(
    alloc: Global,
    case: &Case,
    options: &Options,
    desk: &mut Desk,
    worker: u32,
    reach: &mut Reach,
) -> Result<Turn, AllocError>
    requires case { desk.old.run.case_of ≡ case.now }
    requires fits { Fits desk.old worker reach.old None }
    requires reach { IsReachOf case.now options.now worker reach.old }
    ensures reach { IsReachOf case.now options.now worker reach.new }
    ensures turn { IfOk result (Takes case.now worker reach.new desk.new) }
{
    desk.ready(alloc, worker, reach)?;
    match desk.draw(alloc, worker)? {
        Draw::Piece(ticket) => Ok(Turn::Piece(ticket)),
        Draw::Pause => Ok(Turn::Pause),
        Draw::Done => Ok(Turn::Over),
        Draw::Left => Ok(Turn::Over),
    }
}

/// Takes what the desk gives. A worker that the desk does not know, or that has no memory, abandons
/// it.
#[tactic(auto, using(desk::proofs::DeskLaws::abandoned_ends))]
pub fn take_turn(
    alloc: Global,
    case: &Case,
    options: &Options,
    desk: &mut Desk,
    worker: u32,
    reach: &mut Reach,
) -> Turn
    requires reach { IsReachOf case.now options.now worker reach.old }
    ensures reach { IsReachOf case.now options.now worker reach.new }
    ensures turn { Takes case.now worker reach.new desk.new result }
{
    if !is_known(case, options, desk, worker, reach, None) {
        desk.abandon(None);
        return Turn::Over;
    }
    match draw(alloc, case, options, desk, worker, reach) {
        Ok(turn) => turn,
        Err(_) => {
            desk.abandon(None);
            Turn::Over
        }
    }
}

/// Readies the reach of a worker that holds a ticket, and needs room for more cuts.
///
/// # Errors
///
/// Want of memory, and a desk that does not know the worker. Then the desk is to be left.
#[tactic(auto, using(crate::proofs::OwnLaws::readied))]
pub fn ready_again(
    alloc: Global,
    case: &Case,
    options: &Options,
    desk: &mut Desk,
    reach: &mut Reach,
    ticket: &Ticket,
) -> Result<(), AllocError>
    requires reach { IsReachOf case.now options.now ticket.now.worker reach.old }
    ensures reach { IsReachOf case.now options.now ticket.now.worker reach.new }
    ensures ready { OnOk result (IsReady reach.new) }
{
    if !is_known(case, options, desk, ticket.worker, reach, Some(ticket)) {
        return Err(AllocError);
    }
    desk.ready(alloc, ticket.worker, reach)
}

/// Tells the others through the desk where the worker's search has ended refuted and all its cuts were
/// published, and leaves the worker's search where another has told so.
pub fn share_end(desk: &mut Desk, known: &mut Knowledge)
    ensures { known.new ≡ known.old }
{
    if known.is_refuted() {
        desk.note_refuted();
    }
    if desk.is_refuted() {
        known.leave_search();
    }
}

/// Settles a ticket. A worker that the desk does not know, or that has no memory, abandons it with
/// the ticket; then it is false.
pub fn settle(
    alloc: Global,
    case: &Case,
    options: &Options,
    desk: &mut Desk,
    reach: &Reach,
    ticket: Ticket,
    outcome: Outcome,
) -> bool
    requires { MaySettleBy case.now options.now ticket reach.now outcome }
    ensures settled { IsTrue result → Settles ticket outcome desk.old desk.new }
    ensures left { (IsTrue result → ⊥) → desk.new ≡ abandoned desk.old }
{
    if !is_known(case, options, desk, ticket.worker, reach, Some(&ticket)) {
        desk.abandon(Some(ticket));
        return false;
    }
    match desk.settle(alloc, reach, ticket, outcome) {
        Ok(()) => true,
        Err((ticket, _)) => {
            desk.abandon(Some(ticket));
            false
        }
    }
}
