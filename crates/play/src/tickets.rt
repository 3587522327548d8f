//! The tickets in flight.
ghost use Rattle.std.specs.Prelude.{◌≡◌, ◌↔◌, ◌<◌, ◌≢◌, All, Any, IsTrue, MatchOption, length, remove};
ghost use Rattle.std.specs.Option.{option_copied};
ghost use Rattle.play.specs.Lawful.{IsFree};
ghost use Rattle.play.specs.Parts.{flight_of, without};

use crate::same::same_sides;
use crate::{Aside, Ticket};
use nogoods::Piece;

/// Whether the worker has no ticket in flight.
pub(crate) fn is_free(worker: u32, flight: &[Ticket]) -> bool
    ensures { IsTrue result ↔ IsFree worker flight.now }
{
    flight.iter().all(|ticket| ticket.worker != worker)
}

/// Whether a worker has the piece.
pub(crate) fn is_flying(flight: &[Ticket], piece: &Piece) -> bool
    ensures { IsTrue result ↔ Any (λ t. t.piece ≡ piece.now) flight.now }
{
    flight
        .iter()
        .any(|ticket| same_sides(ticket.piece.sides(), piece.sides()))
}

/// Whether the piece was set aside.
pub(crate) fn is_aside(aside: &[Aside], piece: &Piece) -> bool
    ensures { IsTrue result ↔ Any (λ x. x.piece ≡ piece.now) aside.now }
{
    aside
        .iter()
        .any(|one| same_sides(one.piece.sides(), piece.sides()))
}

/// The ticket of this number.
pub(crate) fn flight_of(number: u64, flight: &[Ticket]) -> Option<&Ticket>
    ensures { option_copied result ≡ flight_of number flight.now }
{
    let [first, rest @ ..] = flight else {
        return None;
    };
    if first.number == number {
        return Some(first);
    }
    flight_of(number, rest)
}

fn place_of(number: u64, flight: &[Ticket]) -> Option<usize>
    ensures { MatchOption result (without number flight.now ≡ flight.now)
        (λ at. (at < length flight.now) × (without number flight.now ≡ remove flight.now at)) }
{
    let [first, rest @ ..] = flight else {
        return None;
    };
    if first.number == number {
        return Some(0);
    }
    Some(place_of(number, rest)? + 1)
}

/// Takes the ticket of this number out of flight.
pub(crate) fn land(number: u64, flight: &mut Vec<Ticket>)
    ensures { flight.new.items ≡ without number flight.old.items }
{
    if let Some(at) = place_of(number, flight.as_slice()) {
        let _ = flight.remove(at);
    }
}
