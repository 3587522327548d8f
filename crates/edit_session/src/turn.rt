//! One turn of a run over kept cuts.
ghost use Rattle.std.specs.Prelude.{◌≡◌, ◌++◌, All, IfOk, List, OnOk};
ghost use Rattle.cuts.specs.Cuts.{Passes};
ghost use Rattle.cuts.specs.declared.cut.Cut.{Cut as Known};
ghost use Rattle.settling.specs.Known.{IsTrueKnowledge};
ghost use Rattle.engine.specs.Turns.{Holds, IsTurn, IsWaiting};
ghost use Rattle.edit_session.specs.Answers.{cuts_in};
ghost use Rattle.edit_session.specs.Rounds.{IsReady, IsRunOver};

use crate::taking::absorb_active;
use cuts::Cut;
use desk_part::{Draw, RecordedPart};
use lpcc_case::Case;
use play::{Options, Outcome, Ticket};
use settling::{Knowledge, outcome_of};
use std::alloc::{AllocError, Global};

/// Adds a copy of the cut that settles a piece, if one does.
fn note_cut(alloc: Global, settled: &mut Vec<Cut>, outcome: &Outcome) -> Result<(), AllocError>
    ensures { OnOk result (settled.new.items ≡ settled.old.items ++ cuts_in outcome.now) }
{
    match outcome {
        Outcome::Cut { cut, .. } | Outcome::Barred { cut, .. } => {
            settled.push(cut.copy(alloc)?)?;
            Ok(())
        }
        _ => Ok(()),
    }
}

/// Finds out about the piece of the ticket, and settles it. A cut by which it is settled is noted.
fn settle_piece(
    alloc: Global,
    case: &Case,
    options: &Options,
    desk: &mut RecordedPart,
    known: &mut Knowledge,
    settled: &mut Vec<Cut>,
    ticket: Ticket,
) -> Result<(), AllocError>
    requires one { options.now.workers ≡ 1 }
    requires holds { Holds case.now options.now ticket desk.old }
    requires known { IsTrueKnowledge case.now known.old }
    requires passes { All (Passes case.now) settled.old.items }
    ensures known { IsTrueKnowledge case.now known.new }
    ensures passes { OnOk result (All (Passes case.now) settled.new.items) }
    ensures waits { OnOk result (IsWaiting case.now options.now desk.new) }
    ensures drawn { OnOk result (desk.new.part.drawn ≡ desk.old.part.drawn) }
    ensures run { OnOk result ((kept waiting : List Known) → IsRunOver case.now options.now kept desk.old waiting settled.old.items
        → IsRunOver case.now options.now kept desk.new waiting settled.new.items) }
{
    let outcome = outcome_of(alloc, case, options, known, &ticket)?;
    note_cut(alloc, settled, &outcome)?;
    match desk.settle(alloc, ticket, outcome) {
        Ok(()) => Ok(()),
        Err(_) => Err(AllocError),
    }
}

/// Draws, settles the piece that was drawn, and absorbs the waiting cuts that have become active.
/// False where the desk is done.
pub fn turn(
    alloc: Global,
    case: &Case,
    options: &Options,
    desk: &mut RecordedPart,
    known: &mut Knowledge,
    waiting: &mut Vec<Cut>,
    settled: &mut Vec<Cut>,
) -> Result<bool, AllocError>
    requires one { options.now.workers ≡ 1 }
    requires waits { IsWaiting case.now options.now desk.old }
    requires known { IsTrueKnowledge case.now known.old }
    requires waiting { All (Passes case.now) waiting.old.items }
    requires settled { All (Passes case.now) settled.old.items }
    ensures known { IsTrueKnowledge case.now known.new }
    ensures waiting { OnOk result (All (Passes case.now) waiting.new.items) }
    ensures settled { OnOk result (All (Passes case.now) settled.new.items) }
    ensures turn { IfOk result (IsTurn case.now options.now desk.old desk.new) }
    ensures run { OnOk result ((kept : List Known) → IsReady case.now options.now kept desk.old waiting.old.items settled.old.items
        → IsReady case.now options.now kept desk.new waiting.new.items settled.new.items) }
{
    match desk.draw(alloc, 0)? {
        Draw::Piece(ticket) => {
            settle_piece(alloc, case, options, desk, known, settled, ticket)?;
            absorb_active(alloc, case, desk, waiting)?;
            Ok(true)
        },
        Draw::Pause => unreachable!(),
        Draw::Done => Ok(false),
    }
}
