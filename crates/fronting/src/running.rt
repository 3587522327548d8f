//! The commands over a source and a sink.
ghost use Rattle.std.specs.Prelude.{◌≡◌, ◌⊎◌, ℕ, List, Err, Ok, Some};
ghost use Rattle.front_text.specs.Problems.{IsBilevel, IsLcp};
ghost use Rattle.fronting.specs.Runs.{IsBilevelDeck, IsBilevelRun, IsLcpDeck, IsLcpRun, IsWrittenFor, SaysBilevelDeck, SaysLcpDeck};
ghost use Rattle.fronting.specs.declared.refusal.FrontRefusal.TheVariants as refusal;

use crate::reading::{read_bilevel_from, read_lcp_from};
use crate::refusal::give_front_refusal;
use command::{Status, give, give_no_memory};
use front_deck::printed_decks_are_those_of_their_problems;
use front_text::{Bilevel, Lcp};
use kkt_front::{bilevel_deck, lcp_deck};
use lp_io::{Sink, Source};
use std::alloc::Global;

// Writes the deck of the problem.
fn give_lcp_deck<K: Sink>(alloc: Global, lcp: &Lcp, out: &mut K) -> Status
    requires { IsLcp lcp.now }
    ensures { IsWrittenFor IsLcpDeck (Ok lcp.now) (K.taken out.old) (K.taken out.new) (K.faults out.old) (K.faults out.new) result
        ⊎ IsWrittenFor IsLcpDeck (Err refusal.NoMemory) (K.taken out.old) (K.taken out.new) (K.faults out.old) (K.faults out.new) result }
{
    match lcp_deck(alloc, lcp) {
        Ok(text) => give(text.as_slice(), 0, out),
        Err(_) => give_no_memory(out),
    }
}

// Writes the deck of the problem.
fn give_bilevel_deck<K: Sink>(alloc: Global, bilevel: &Bilevel, out: &mut K) -> Status
    requires { IsBilevel bilevel.now }
    ensures { IsWrittenFor IsBilevelDeck (Ok bilevel.now) (K.taken out.old) (K.taken out.new) (K.faults out.old) (K.faults out.new) result
        ⊎ IsWrittenFor IsBilevelDeck (Err refusal.NoMemory) (K.taken out.old) (K.taken out.new) (K.faults out.old) (K.faults out.new) result }
{
    match bilevel_deck(alloc, bilevel) {
        Ok(text) => give(text.as_slice(), 0, out),
        Err(_) => give_no_memory(out),
    }
}

/// Reads the text of a linear complementarity problem, and writes its deck, or why there is none;
/// answers the status that a program ends with. It takes no handle, and always returns.
pub fn print_lcp<S: Source, K: Sink>(alloc: Global, src: &mut S, out: &mut K) -> Status
    // The text is refused exactly for its cause, or the deck of the problem that it spells is written.
    ensures answered { IsLcpRun IsLcpDeck (S.left src.old) (S.faults src.old) (S.faults src.new)
        (K.taken out.old) (K.taken out.new) (K.faults out.old) (K.faults out.new) result }

    // With status 0 the deck was written. Read as a deck, its text has a case whose feasible points are
    // the solutions of the problem.
    ensures printed { result ≡ 0 → (bytes : List ℕ) → S.left src.old ≡ Some bytes →
        SaysLcpDeck bytes (K.taken out.old) (K.taken out.new) }
{
    printed_decks_are_those_of_their_problems();
    match read_lcp_from(alloc, src) {
        Ok(lcp) => give_lcp_deck(alloc, &lcp, out),
        Err(refusal) => give_front_refusal(alloc, refusal, out),
    }
}

/// Reads the text of a bilevel problem, and writes its deck, or why there is none; answers the status
/// that a program ends with. It takes no handle, and always returns.
pub fn print_bilevel<S: Source, K: Sink>(alloc: Global, src: &mut S, out: &mut K) -> Status
    // The text is refused exactly for its cause, or the deck of the problem that it spells is written.
    ensures answered { IsBilevelRun IsBilevelDeck (S.left src.old) (S.faults src.old) (S.faults src.new)
        (K.taken out.old) (K.taken out.new) (K.faults out.old) (K.faults out.new) result }

    // With status 0 the deck was written. Read as a deck, its text has a case whose feasible points are
    // those that meet all lines, with multipliers of y behind the variables; then y is least in
    // `follow` for its x.
    ensures printed { result ≡ 0 → (bytes : List ℕ) → S.left src.old ≡ Some bytes →
        SaysBilevelDeck bytes (K.taken out.old) (K.taken out.new) }
{
    printed_decks_are_those_of_their_problems();
    match read_bilevel_from(alloc, src) {
        Ok(bilevel) => give_bilevel_deck(alloc, &bilevel, out),
        Err(refusal) => give_front_refusal(alloc, refusal, out),
    }
}
