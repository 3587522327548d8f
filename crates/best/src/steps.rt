//! The single steps on the words of a best.
ghost use Rattle.std.specs.Prelude.{◌≡◌, ◌≢◌, ◌<◌, ◌+◌, ◌%◌, ◌^◌, [], ◌∷◌, ◌++◌, ℕ, List, Option, None, true, false, map, length, IsTrue};
ghost use Rattle.best.specs.History.{history, newest};
ghost use Rattle.best.specs.Rules.{own, others, offers, newcomer, with_one_less};

use crate::Entry;
use crate::passes::{Best, BestPass};
use crate::rule::{DrawsTicket, EndsTurn, LooksForTurn, NewPass, View};
use atomic_table::Seat;

/// The word that counts the tickets.
const TICKETS: usize = 0;

/// The word that counts the turns that have ended.
pub const SERVED: usize = 1;

/// A pass that has seen nothing.
pub fn new_pass<T: Entry>(
    best: &Best<T>,
    seat: &mut Seat<Option<T>, View<T>>,
) -> Seat<Option<T>, View<T>>
    requires ours { seat.old.table_id ≡ best.now.table.shared.table_id }
    requires some_left { 0 < seat.old.me.0.makes }
    requires idle { (seat.old.me.0.waits ≡ false) × (seat.old.me.0.turns ≡ false) }
    ensures ours { (seat.new.table_id ≡ seat.old.table_id) × (result.table_id ≡ seat.old.table_id) }
    ensures left { seat.new.me ≡ (with_one_less seat.old.me.0, seat.old.me.1) }
    ensures new { result.me ≡ (newcomer, []) }
{
    best.table.shared.split_seat::<NewPass>(seat)
}

/// Draws a ticket.
pub fn draw_ticket<T: Entry>(best: &Best<T>, seat: &mut Seat<Option<T>, View<T>>) -> u64
    requires ours { seat.old.table_id ≡ best.now.table.shared.table_id }
    requires idle { (seat.old.me.0.waits ≡ false) × (seat.old.me.0.turns ≡ false) }
    ensures ours { seat.new.table_id ≡ seat.old.table_id }
    ensures waits { seat.new.me.0 ≡ record seat.old.me.0 { waits = true; ticket = seat.new.me.0.ticket } }
    ensures ticket { result ≡ seat.new.me.0.ticket % 2 ^ 64 }
    ensures slots { seat.new.me.1 ≡ seat.old.me.1 }
{
    best.table.shared.fetch_add::<DrawsTicket>(seat, TICKETS, 1)
}

/// Looks whether the turn of this ticket has come, and finds how many turns have ended. Where it
/// has come, the pass has seen all turns, and has the slot in hand, with the newest entry.
pub fn look_for_turn<T: Entry>(
    best: &Best<T>,
    seat: &mut Seat<Option<T>, View<T>>,
    ticket: u64,
    offer: &Option<T>,
) -> u64
    requires ours { seat.old.table_id ≡ best.now.table.shared.table_id }
    requires waits { (seat.old.me.0.waits ≡ true) × (seat.old.me.0.turns ≡ false) }
    requires ticket { ticket ≡ seat.old.me.0.ticket % 2 ^ 64 }
    ensures ours { seat.new.table_id ≡ seat.old.table_id }
    ensures turn { result ≡ ticket → (between : List (Option T))
        × (seat.new.me.0 ≡ record seat.old.me.0 { turns = true; offer = offer.now; seen = map others between ++ seat.old.me.0.seen })
        × (seat.new.me.1 ≡ (0, newest (history T.is_lower (offers seat.new.me.0.seen))) ∷ seat.old.me.1) }
    ensures none { result ≢ ticket → seat.new.me ≡ seat.old.me }
{
    best.table
        .shared
        .compare_exchange_with::<LooksForTurn<T>>(seat, SERVED, ticket, ticket, offer)
}

/// Ends the turn, and gives back the slot. The turn stands behind all that the pass had seen.
pub fn end_turn<T: Entry>(best: &Best<T>, seat: &mut Seat<Option<T>, View<T>>, ticket: u64)
    requires ours { seat.old.table_id ≡ best.now.table.shared.table_id }
    requires turns { seat.old.me.0.turns ≡ true }
    requires ticket { ticket ≡ seat.old.me.0.ticket % 2 ^ 64 }
    requires slot { seat.old.me.1 ≡ (0, newest (history T.is_lower (seat.old.me.0.offer ∷ offers seat.old.me.0.seen))) ∷ [] }
    ensures ours { seat.new.table_id ≡ seat.old.table_id }
    ensures turn { seat.new.me.0 ≡ record seat.old.me.0 { waits = false; turns = false; seen = own seat.old.me.0.offer ∷ seat.old.me.0.seen } }
    ensures slots { seat.new.me.1 ≡ [] }
{
    best.table
        .shared
        .store::<EndsTurn>(seat, SERVED, ticket.wrapping_add(1));
}
