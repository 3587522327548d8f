//! One turn of a worker: a draw, and where it gives a piece, what settles it.
ghost use Rattle.std.specs.Prelude.{◌≡◌, ◌<◌, IfOk, OnOk};
ghost use Rattle.settling.specs.Known.{IsTrueKnowledge};
ghost use Rattle.engine.specs.Turns.{Holds, IsTurn, IsWaiting};

use desk_part::{Draw, RecordedPart};
use lpcc_case::Case;
use play::{Options, Ticket};
use settling::{Knowledge, outcome_of};
use std::alloc::{AllocError, Global};

/// Finds out about the piece of the ticket, and settles it.
fn settle_piece(
    alloc: Global,
    case: &Case,
    options: &Options,
    desk: &mut RecordedPart,
    known: &mut Knowledge,
    ticket: Ticket,
) -> Result<(), AllocError>
    requires one { options.now.workers ≡ 1 }
    requires holds { Holds case.now options.now ticket desk.old }
    requires known { IsTrueKnowledge case.now known.old }
    ensures known { IsTrueKnowledge case.now known.new }
    ensures waits { OnOk result (IsWaiting case.now options.now desk.new) }
    ensures drawn { OnOk result (desk.new.part.drawn ≡ desk.old.part.drawn) }
{
    let outcome = outcome_of(alloc, case, options, known, &ticket)?;
    match desk.settle(alloc, ticket, outcome) {
        Ok(()) => Ok(()),
        Err(_) => Err(AllocError),
    }
}

/// Draws, and settles the piece that was drawn. False where the desk is done.
pub fn turn(
    alloc: Global,
    case: &Case,
    options: &Options,
    desk: &mut RecordedPart,
    known: &mut Knowledge,
) -> Result<bool, AllocError>
    requires one { options.now.workers ≡ 1 }
    requires waits { IsWaiting case.now options.now desk.old }
    requires known { IsTrueKnowledge case.now known.old }
    ensures known { IsTrueKnowledge case.now known.new }
    ensures turn { IfOk result (IsTurn case.now options.now desk.old desk.new) }
{
    match desk.draw(alloc, 0)? {
        Draw::Piece(ticket) => {
            settle_piece(alloc, case, options, desk, known, ticket)?;
            Ok(true)
        },
        Draw::Pause => unreachable!(),
        Draw::Done => Ok(false),
    }
}
