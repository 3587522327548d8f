//! The case of the deck that a source gives.
ghost use Rattle.std.specs.Prelude.{◌≡◌, ◌<◌, ◌≤◌, ◌⊎◌, ◌^◌, ◌-◌, ℕ, List, Err, IfErr, IfOk, MatchResult, None, Some, drop, length};
ghost use Rattle.lp_io.specs.Faults.{Rose};
ghost use Rattle.decks.specs.declared.fault.DeckFault.TheVariants.{At};
ghost use Rattle.decks.specs.declared.fault.DeckWhy.TheVariants.{AfterEnd};
ghost use Rattle.decks.specs.Decks.{IsDeck};
ghost use Rattle.decks.specs.Texts.{Spells};
ghost use Rattle.command.specs.Answers.{IsAnswer};
ghost use Rattle.command.specs.Inputs.{IsFaulty, IsReadAlone, SpellsAlone, SpellsCase, unwanted};
ghost use Rattle.command.specs.declared.extent.Extent.TheVariants as extent;
ghost use Rattle.command.specs.declared.refusal.Refusal.TheVariants as refusal;

use crate::extent::Extent;
use crate::laws::a_deck_alone_is_read_once;
use crate::refusal::Refusal;
use deck_case::case_of;
use decks::{Deck, DeckFault};
use lp_io::{Source, TakeFault, take_all};
use lpcc_case::Case;
use mps_pairs::{nothing_after, read_deck};
use std::alloc::Global;

/// The most bytes that a command takes which reads a deck alone.
pub const MOST_DECK_BYTES: usize = 67_108_864;

/// All bytes of the source, at most `limit`.
pub fn take<S: Source>(alloc: Global, src: &mut S, limit: usize) -> Result<Vec<u8>, Refusal>
    ensures whole { IfOk result (λ v. (bytes : List ℕ) → S.left src.old ≡ Some bytes → v.items ≡ bytes) }
    ensures short { IfOk result (λ v. length v.items ≤ limit) }
    ensures refused { IfErr result (λ r. (r ≡ refusal.ReadFault) ⊎ (r ≡ refusal.NoMemory)
        ⊎ ((r ≡ refusal.TooLong) × ((bytes : List ℕ) → S.left src.old ≡ Some bytes → limit < length bytes))) }
    ensures counted { IfErr result (λ r. r ≡ refusal.ReadFault → Rose (S.faults src.old) (S.faults src.new)) }
{
    match take_all(alloc, src, limit) {
        Ok(input) => Ok(input),
        Err(TakeFault::ReadFault) => Err(Refusal::ReadFault),
        Err(TakeFault::InputLong) => Err(Refusal::TooLong),
        Err(TakeFault::NoMemory(_)) => Err(Refusal::NoMemory),
    }
}

// Nothing stands behind the deck that is not to be there.
fn ends_well(input: &[u8], place: usize, extent: Extent) -> Result<(), DeckFault>
    requires { length input.now < 2 ^ 32 - 1 }
    ensures { MatchResult result (λ _. unwanted extent input.now place ≡ None)
        (λ f. (line : ℕ) × (unwanted extent input.now place ≡ Some line) × (f ≡ At line AfterEnd)) }
{
    match extent {
        Extent::Alone => nothing_after(input, place),
        Extent::Prefix => Ok(()),
    }
}

// The deck with which the input begins, and the place of the first byte behind it.
fn deck_in(alloc: Global, input: &[u8], extent: Extent) -> Result<(Deck, usize), Refusal>
    requires { length input.now < 2 ^ 32 - 1 }
    ensures spelled { IfOk result (λ r. Spells input.now r.0 r.1) }
    ensures kept { IfOk result (λ r. IsDeck r.0) }
    ensures within { IfOk result (λ r. r.1 ≤ length input.now) }
    ensures alone { IfOk result (λ r. unwanted extent input.now r.1 ≡ None) }
    ensures refused { IfErr result (λ r. (r ≡ refusal.NoMemory) ⊎ IsFaulty extent input.now r) }
{
    let (deck, place) = read_deck(alloc, input)?;
    ends_well(input, place, extent)?;
    Ok((deck, place))
}

/// The case of the deck with which the input begins, and the place of the first byte behind the
/// line of its ENDATA; or why there is none: the first fault of the deck, then of what stands
/// behind it, then of its case.
pub fn case_in(alloc: Global, input: &[u8], extent: Extent) -> Result<(Case, usize), Refusal>
    requires { length input.now < 2 ^ 32 - 1 }
    ensures spelled { IfOk result (λ r. SpellsCase extent input.now r.0 (drop r.1 input.now)) }
    ensures within { IfOk result (λ r. r.1 ≤ length input.now) }
    ensures refused { IfErr result (λ r. (r ≡ refusal.NoMemory) ⊎ IsFaulty extent input.now r) }
{
    let (deck, place) = deck_in(alloc, input, extent)?;
    let case = case_of(alloc, &deck)?;
    Ok((case, place))
}

// The case of an input that is a deck alone.
fn case_alone(alloc: Global, input: &[u8]) -> Result<Case, Refusal>
    requires { length input.now < 2 ^ 32 - 1 }
    ensures spelled { IfOk result (λ a. SpellsAlone input.now a) }
    ensures refused { IfErr result (λ r. (r ≡ refusal.NoMemory) ⊎ IsFaulty extent.Alone input.now r) }
{
    let (case, _) = case_in(alloc, input, Extent::Alone)?;
    Ok(case)
}

/// The case of the deck that the source gives alone, at most `limit` bytes; or why there is none.
/// The source is read to its end first.
pub fn read_case<S: Source>(alloc: Global, src: &mut S, limit: usize) -> Result<Case, Refusal>
    requires { limit < 2 ^ 32 - 1 }
    ensures { IsAnswer (IsReadAlone limit) (Err refusal.ReadFault) (Err refusal.NoMemory)
        (S.left src.old) (S.faults src.old) (S.faults src.new) result }
{
    a_deck_alone_is_read_once();
    let input = take(alloc, src, limit)?;
    case_alone(alloc, &input)
}
