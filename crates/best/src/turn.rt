//! One turn: waiting for it, and what is done in it.
ghost use Rattle.std.specs.Prelude.{◌≡◌, ◌≢◌, ◌%◌, ◌^◌, [], ◌∷◌, ◌++◌, List, Option, true, false, map, IfOk, MatchOption};
ghost use Rattle.best.specs.History.{history, newest, lower_of};
ghost use Rattle.best.specs.Rules.{own, others, offers};

use crate::Entry;
use crate::passes::Best;
use crate::rule::View;
use crate::steps::{SERVED, end_turn, look_for_turn};
use atomic_table::Seat;
use std::alloc::{AllocError, Global};
use std::sync::Wait;

/// Waits until the turn of this ticket has come.
pub fn await_turn<T: Entry, R: Wait>(
    rt: &R,
    best: &Best<T>,
    seat: &mut Seat<Option<T>, View<T>>,
    ticket: u64,
    offer: &Option<T>,
)
    requires ours { seat.old.table_id ≡ best.now.table.shared.table_id }
    requires waits { (seat.old.me.0.waits ≡ true) × (seat.old.me.0.turns ≡ false) }
    requires ticket { ticket ≡ seat.old.me.0.ticket % 2 ^ 64 }
    ensures ours { seat.new.table_id ≡ seat.old.table_id }
    ensures turn { (between : List (Option T))
        × (seat.new.me.0 ≡ record seat.old.me.0 { turns = true; offer = offer.now; seen = map others between ++ seat.old.me.0.seen })
        × (seat.new.me.1 ≡ (0, newest (history T.is_lower (offers seat.new.me.0.seen))) ∷ seat.old.me.1) }
{
    for _ in rt.forever() {
        let served = look_for_turn(best, seat, ticket, offer);
        if served == ticket {
            return;
        }
        best.table
            .shared
            .park(rt, SERVED, (served & 0xffff_ffff) as u32);
    }
    unreachable!()
}

/// Puts the offer in the slot where it is lower than what is there, or nothing is.
fn keep_lower<T: Entry>(slot: &mut Option<T>, offer: Option<T>)
    ensures { slot.new ≡ lower_of T.is_lower slot.old offer }
{
    let Some(entry) = offer else {
        return;
    };
    let keeps = match slot {
        Some(had) => !entry.below(had),
        None => false,
    };
    if !keeps {
        *slot = Some(entry);
    }
}

/// A copy of an entry, if there is one.
pub fn copy_of<T: Entry>(alloc: Global, entry: &Option<T>) -> Result<Option<T>, AllocError>
    ensures { IfOk result (λ x. x ≡ entry.now) }
{
    match entry {
        Some(entry) => Ok(Some(entry.copy(alloc)?)),
        None => Ok(None),
    }
}

/// In its turn: keeps the lower of the offer and the entry in the slot, and copies what is kept.
fn settle<T: Entry>(
    best: &Best<T>,
    alloc: Global,
    seat: &mut Seat<Option<T>, View<T>>,
    offer: Option<T>,
) -> Result<Option<T>, AllocError>
    requires ours { seat.old.table_id ≡ best.now.table.shared.table_id }
    requires slot { seat.old.me.1 ≡ (0, newest (history T.is_lower (offers seat.old.me.0.seen))) ∷ [] }
    ensures ours { seat.new.table_id ≡ seat.old.table_id }
    ensures slot { seat.new.me ≡ (seat.old.me.0, (0, newest (history T.is_lower (offer ∷ offers seat.old.me.0.seen))) ∷ []) }
    ensures copy { IfOk result (λ x. x ≡ newest (history T.is_lower (offer ∷ offers seat.old.me.0.seen))) }
{
    let slot = seat.slot_mut(&best.table.shared, 0);
    keep_lower(slot, offer);
    copy_of(alloc, slot)
}

/// Makes the whole turn of a ticket, and copies the newest entry. Where there is no memory for the
/// copy, the turn is made all the same.
pub fn take_turn<T: Entry, R: Wait>(
    rt: &R,
    best: &Best<T>,
    alloc: Global,
    seat: &mut Seat<Option<T>, View<T>>,
    ticket: u64,
    offer: Option<T>,
) -> Result<Option<T>, AllocError>
    requires ours { seat.old.table_id ≡ best.now.table.shared.table_id }
    requires waits { (seat.old.me.0.waits ≡ true) × (seat.old.me.0.turns ≡ false) }
    requires ticket { ticket ≡ seat.old.me.0.ticket % 2 ^ 64 }
    requires empty { seat.old.me.1 ≡ [] }
    ensures ours { seat.new.table_id ≡ seat.old.table_id }
    ensures idle { (seat.new.me.0.waits ≡ false) × (seat.new.me.0.turns ≡ false) × (seat.new.me.1 ≡ []) }
    ensures turn { (between : List (Option T)) × (seat.new.me.0.seen ≡ own offer ∷ (map others between ++ seat.old.me.0.seen)) }
    ensures newest { IfOk result (λ x. x ≡ newest (history T.is_lower (offers seat.new.me.0.seen))) }
{
    await_turn(rt, best, seat, ticket, &offer);
    let newest = settle(best, alloc, seat, offer);
    end_turn(best, seat, ticket);
    best.table.shared.wake_all(SERVED);
    newest
}
