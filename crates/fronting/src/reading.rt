//! The problem whose text a source gives.
ghost use Rattle.std.specs.Prelude.{◌≡◌, ◌<◌, ◌≤◌, ◌⊎◌, ◌^◌, ◌-◌, ℕ, List, Err, IfErr, IfOk, Some, length};
ghost use Rattle.lp_io.specs.Faults.{Rose};
ghost use Rattle.front_text.specs.Problems.{IsBilevel, IsLcp};
ghost use Rattle.front_text.specs.Texts.{FailsAsBilevel, FailsAsLcp, SpellsBilevel, SpellsLcp};
ghost use Rattle.fronting.specs.Inputs.{IsRefusal};
ghost use Rattle.fronting.specs.Runs.{IsRightProblem};
ghost use Rattle.fronting.specs.declared.refusal.FrontRefusal.TheVariants as refusal;

use crate::laws::a_text_is_read_once;
use crate::refusal::FrontRefusal;
use command::MOST_DECK_BYTES;
use front_text::{Bilevel, Lcp, read_bilevel, read_lcp};
use lp_io::{Source, TakeFault, take_all};
use std::alloc::Global;

// All bytes of the source, no more than a command takes.
fn take<S: Source>(alloc: Global, src: &mut S) -> Result<Vec<u8>, FrontRefusal>
    ensures whole { IfOk result (λ v. (bytes : List ℕ) → S.left src.old ≡ Some bytes → v.items ≡ bytes) }
    ensures short { IfOk result (λ v. length v.items ≤ MOST_DECK_BYTES) }
    ensures refused { IfErr result (λ r. (r ≡ refusal.ReadFault) ⊎ (r ≡ refusal.NoMemory)
        ⊎ ((r ≡ refusal.TooLong) × ((bytes : List ℕ) → S.left src.old ≡ Some bytes → MOST_DECK_BYTES < length bytes))) }
    ensures counted { IfErr result (λ r. r ≡ refusal.ReadFault → Rose (S.faults src.old) (S.faults src.new)) }
{
    match take_all(alloc, src, MOST_DECK_BYTES) {
        Ok(input) => Ok(input),
        Err(TakeFault::ReadFault) => Err(FrontRefusal::ReadFault),
        Err(TakeFault::InputLong) => Err(FrontRefusal::TooLong),
        Err(TakeFault::NoMemory(_)) => Err(FrontRefusal::NoMemory),
    }
}

// The complementarity problem that an input spells.
fn lcp_in(alloc: Global, input: &[u8]) -> Result<Lcp, FrontRefusal>
    requires { length input.now ≤ MOST_DECK_BYTES }
    ensures spelled { IfOk result (λ p. SpellsLcp input.now p) }
    ensures kept { IfOk result IsLcp }
    ensures refused { IfErr result (λ r. (r ≡ refusal.NoMemory) ⊎ IsRefusal FailsAsLcp MOST_DECK_BYTES input.now r) }
{
    Ok(read_lcp(alloc, input)?)
}

// The bilevel problem that an input spells.
fn bilevel_in(alloc: Global, input: &[u8]) -> Result<Bilevel, FrontRefusal>
    requires { length input.now ≤ MOST_DECK_BYTES }
    ensures spelled { IfOk result (λ p. SpellsBilevel input.now p) }
    ensures kept { IfOk result IsBilevel }
    ensures refused { IfErr result (λ r. (r ≡ refusal.NoMemory) ⊎ IsRefusal FailsAsBilevel MOST_DECK_BYTES input.now r) }
{
    Ok(read_bilevel(alloc, input)?)
}

/// The complementarity problem whose text the source gives, no more bytes than a command takes; or
/// why there is none. The source is read to its end first.
pub fn read_lcp_from<S: Source>(alloc: Global, src: &mut S) -> Result<Lcp, FrontRefusal>
    // It is refused exactly for its cause, and what is read keeps the rules of a problem.
    ensures right { IsRightProblem SpellsLcp FailsAsLcp (S.left src.old) (S.faults src.old) (S.faults src.new) result }
    ensures kept { IfOk result IsLcp }
{
    a_text_is_read_once();
    let input = take(alloc, src)?;
    lcp_in(alloc, &input)
}

/// The bilevel problem whose text the source gives, no more bytes than a command takes; or why there
/// is none. The source is read to its end first.
pub fn read_bilevel_from<S: Source>(alloc: Global, src: &mut S) -> Result<Bilevel, FrontRefusal>
    // It is refused exactly for its cause, and what is read keeps the rules of a problem.
    ensures right { IsRightProblem SpellsBilevel FailsAsBilevel (S.left src.old) (S.faults src.old) (S.faults src.new) result }
    ensures kept { IfOk result IsBilevel }
{
    a_text_is_read_once();
    let input = take(alloc, src)?;
    bilevel_in(alloc, &input)
}
