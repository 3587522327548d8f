//! Which tickets a worker holds.
ghost use Rattle.std.specs.Prelude.{◌≡◌, ◌↔◌, IsTrue};
ghost use Rattle.std.specs.Option.{option_copied};
ghost use Rattle.desk.specs.Tickets.{Holds, listed, tickets_of};

use nogoods::Side;
use play::Ticket;

#[tactic(auto, using(crate::proofs::HeldLaws::equals))]
fn same_sides(left: &[Side], right: &[Side]) -> bool
    ensures { IsTrue result ↔ (left.now ≡ right.now) }
{
    let [first, left @ ..] = left else {
        return right.is_empty();
    };
    let [second, right @ ..] = right else {
        return false;
    };
    if *first != *second {
        return false;
    }
    same_sides(left, right)
}

#[tactic(auto, using(crate::proofs::HeldLaws::equals))]
fn same_ticket(left: &Ticket, right: &Ticket) -> bool
    ensures { IsTrue result ↔ (left.now ≡ right.now) }
{
    if left.worker != right.worker {
        return false;
    }
    if left.number != right.number {
        return false;
    }
    same_sides(left.piece.sides(), right.piece.sides())
}

/// Whether the worker's tickets in flight are none, or just this one.
fn has_just(flight: &[Ticket], worker: u32, ticket: Option<&Ticket>) -> bool
    ensures { IsTrue result ↔ (tickets_of worker flight.now ≡ listed (option_copied ticket.entry)) }
{
    let [first, rest @ ..] = flight else {
        return ticket.is_none();
    };
    if first.worker != worker {
        return has_just(rest, worker, ticket);
    }
    let Some(ticket) = ticket else {
        return false;
    };
    if !same_ticket(first, ticket) {
        return false;
    }
    has_just(rest, worker, None)
}

/// Whether of the tickets in flight the worker holds none, or just this one.
#[tactic(auto, using(crate::proofs::HeldLaws::holds_of, crate::proofs::HeldLaws::of_holds))]
pub fn holds(flight: &[Ticket], worker: u32, ticket: Option<&Ticket>) -> bool
    ensures { IsTrue result ↔ Holds worker flight.now (option_copied ticket.entry) }
{
    has_just(flight, worker, ticket)
}
