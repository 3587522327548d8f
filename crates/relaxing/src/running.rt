//! The command over a source and a sink.
ghost use Rattle.std.specs.Prelude.{◌≡◌, ◌⊎◌, ℕ, List, Err, Ok, Some};
ghost use Rattle.lpcc_case.specs.Instance.{Instance};
ghost use Rattle.command.specs.Inputs.{SpellsAlone};
ghost use Rattle.command.specs.Runs.{IsRun, IsWrittenFor};
ghost use Rattle.command.specs.declared.refusal.Refusal.TheVariants as refusal;
ghost use Rattle.relaxing.specs.Relaxing.{AreEnough, Says, SaysVerdict};

use crate::solving::relaxation_of;
use command::{
    MOST_DECK_BYTES, Status, a_deck_alone_is_read_once, give, give_no_memory, give_refusal,
    read_case,
};
use deck_case::relaxed_verdicts_are_those_of_the_relaxed_deck;
use decks::spelled_decks_keep;
use lp_io::{Sink, Source};
use lpcc_case::Case;
use std::alloc::Global;

// Solves the relaxation of the case, and writes how that ends.
fn give_relaxation<K: Sink>(alloc: Global, case: &Case, pivots: u64, out: &mut K) -> Status
    ensures { IsWrittenFor (Says pivots) (Ok case.now) (K.taken out.old) (K.taken out.new) (K.faults out.old) (K.faults out.new) result
        ⊎ IsWrittenFor (Says pivots) (Err refusal.NoMemory) (K.taken out.old) (K.taken out.new) (K.faults out.old) (K.faults out.new) result }
{
    let Ok(end) = relaxation_of(alloc, case, pivots) else {
        return give_no_memory(out);
    };
    match end.text(alloc) {
        Ok(text) => give(text.as_bytes(), end.status(), out),
        Err(_) => give_no_memory(out),
    }
}

/// Reads a deck alone, solves it without its pairs with at most so many pivots in each stage of the
/// walk, and writes the verdict, or why there is none; answers the status that a program ends with.
/// It takes no handle, and always returns.
pub fn relax<S: Source, K: Sink>(alloc: Global, pivots: u64, src: &mut S, out: &mut K) -> Status
    // The deck is refused exactly for its cause, or its case has this end; that is written.
    ensures answered { IsRun (Says pivots) (S.left src.old) (S.faults src.old) (S.faults src.new)
        (K.taken out.old) (K.taken out.new) (K.faults out.old) (K.faults out.new) result }

    // Status 0 is a verdict that is true of the deck without its pairs.
    ensures verdict { result ≡ 0 → (bytes : List ℕ) → S.left src.old ≡ Some bytes →
        SaysVerdict bytes (K.taken out.old) (K.taken out.new) }

    // With as many pivots as there are choices of the columns they are never spent.
    ensures enough { (bytes : List ℕ) → S.left src.old ≡ Some bytes → (a : Instance) → SpellsAlone bytes a →
        AreEnough a pivots → result ≡ 8 → ⊥ }
{
    a_deck_alone_is_read_once();
    spelled_decks_keep();
    relaxed_verdicts_are_those_of_the_relaxed_deck();
    match read_case(alloc, src, MOST_DECK_BYTES) {
        Ok(case) => give_relaxation(alloc, &case, pivots, out),
        Err(refusal) => give_refusal(alloc, refusal, out),
    }
}
