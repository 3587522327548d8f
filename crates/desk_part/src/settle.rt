//! The parts of a settlement. Each either changes what it is for, or hands back what it was given.
ghost use Rattle.std.specs.Prelude.{◌≡◌, ◌≢◌, ◌<◌, ◌≤ℤ◌, ◌↔◌, ◌⊎◌, ◌∷◌, ◌++◌, [], pos, Contains, List, IfErr, IfOk, IfSome, None, OnErr, OnOk, length, remove};
ghost use Rattle.nogoods.specs.declared.choice.Side.{Side as Member};
ghost use Rattle.cuts.specs.Cuts.{no_good_of};
ghost use Rattle.derivation.specs.declared.step.Step.TheVariants as step;
ghost use Rattle.play.specs.Parts.{flight_of, without};

use cuts::Cut;
use derivation::Log;
use play::Ticket;
use search::PieceSet;
use std::alloc::{AllocError, Global};

/// Absorbs the cut, with its no-good as a start of the log. Without memory nothing changes.
pub fn absorb(alloc: Global, absorbed: &mut Vec<Cut>, log: &mut Log, cut: Cut) -> Result<(), Cut>
    ensures cuts { OnOk result (absorbed.new.items ≡ absorbed.old.items ++ cut ∷ []) }
    ensures start { OnOk result (log.new ≡ log.old ++ step.Start (no_good_of cut) ∷ []) }
    ensures same_cuts { OnErr result (absorbed.new.items ≡ absorbed.old.items) }
    ensures same_log { OnErr result (log.new ≡ log.old) }
    ensures back { IfErr result (λ c. c ≡ cut) }
{
    let Ok(ng) = cut.no_good().copy(alloc) else {
        return Err(cut);
    };
    if absorbed.reserve(1).is_err() {
        return Err(cut);
    }
    if log.start(ng).is_err() {
        return Err(cut);
    }
    match absorbed.push(cut) {
        Ok(()) => Ok(()),
        Err(failed) => Err(failed.value),
    }
}

/// Puts the ticket in flight, and its piece among those that are blocked. Without memory nothing
/// changes.
pub fn fly(
    alloc: Global,
    flight: &mut Vec<Ticket>,
    blocked: &mut PieceSet,
    ticket: Ticket,
) -> Result<(), AllocError>
    ensures flight { OnOk result (flight.new.items ≡ flight.old.items ++ ticket ∷ []) }
    ensures blocked { OnOk result ((p : List Member) → Contains blocked.new p ↔ ((p ≡ ticket.piece) ⊎ Contains blocked.old p)) }
    ensures same_flight { OnErr result (flight.new.items ≡ flight.old.items) }
    ensures same_blocked { OnErr result (blocked.new ≡ blocked.old) }
{
    let piece = ticket.piece.copy(alloc)?;
    flight.reserve(1)?;
    if blocked.insert(piece).is_err() {
        return Err(AllocError);
    }
    flight.push(ticket)?;
    Ok(())
}

fn place_of(flight: &[Ticket], number: u64) -> usize
    requires { flight_of number flight.now ≢ None }
    ensures within { result < length flight.now }
    ensures place { without number flight.now ≡ remove flight.now result }
{
    let [first, rest @ ..] = flight else {
        return 0;
    };
    if first.number == number {
        return 0;
    }
    place_of(rest, number) + 1
}

/// Takes the ticket of this number out of flight.
pub fn land(flight: &mut Vec<Ticket>, number: u64)
    requires { flight_of number flight.old.items ≢ None }
    ensures { flight.new.items ≡ without number flight.old.items }
{
    let at = place_of(flight.as_slice(), number);
    let _ = flight.remove(at);
}
