//! What the definitions of inputs come to.
ghost use Rattle.std.specs.Prelude.{◌≡◌, ◌↔◌, ℕ, List, Result};
ghost use Rattle.lpcc_case.specs.Cases.{IsCase};
ghost use Rattle.lpcc_case.specs.Instance.{Instance};
ghost use Rattle.lpcc_case.specs.Verdicts.{IsTrueOf};
ghost use Rattle.lpcc_case.specs.declared.verdict.Verdict.{Verdict};
ghost use Rattle.command.specs.Inputs.{IsReadAlone, IsRefusal, IsTaken, IsTrueOfBytes, SpellsCase};
ghost use Rattle.command.specs.declared.extent.Extent.{Extent as Range};
ghost use Rattle.command.specs.declared.refusal.Refusal.{Refusal as Reason};

use deck_case::{
    a_decks_case_keeps_the_limits, case_exactly_without_a_fault, case_is_determined,
    fault_is_determined, verdicts_are_those_of_the_deck,
};
use decks::{spelled_decks_keep, spelled_once, spelled_or_faulty};

/// The bytes of an input begin with one case and one rest behind it at most, or are the cause of
/// one refusal.
pub fn an_input_begins_with_one_case()
    ensures one { (e : Range) (bytes : List ℕ) (a b : Instance) (rest other : List ℕ) →
        SpellsCase e bytes a rest → SpellsCase e bytes b other → (a ≡ b) × (rest ≡ other) }
    ensures not_both { (limit : ℕ) (e : Range) (bytes : List ℕ) (a : Instance) (rest : List ℕ) (r : Reason) →
        IsTaken limit bytes → SpellsCase e bytes a rest → IsRefusal limit e bytes r → ⊥ }
    ensures one_refusal { (limit : ℕ) (e : Range) (bytes : List ℕ) (r s : Reason) →
        IsRefusal limit e bytes r → IsRefusal limit e bytes s → r ≡ s }
{
    spelled_once();
    spelled_or_faulty();
    case_is_determined();
    fault_is_determined();
    case_exactly_without_a_fault();
}

/// What is read of a deck alone is determined by the bytes.
pub fn a_deck_alone_is_read_once()
    ensures { (limit : ℕ) (bytes : List ℕ) (x y : Result Instance Reason) →
        IsReadAlone limit bytes x → IsReadAlone limit bytes y → x ≡ y }
{
    an_input_begins_with_one_case();
}

/// What the bytes of an input begin with keeps the limits of a case.
pub fn spelled_cases_are_cases()
    ensures { (e : Range) (bytes : List ℕ) (a : Instance) (rest : List ℕ) → SpellsCase e bytes a rest → IsCase a }
{
    spelled_decks_keep();
    a_decks_case_keeps_the_limits();
}

/// A verdict that is true of the case is true of the deck with which the bytes begin.
pub fn verdicts_are_true_of_the_bytes()
    ensures { (e : Range) (bytes : List ℕ) (a : Instance) (rest : List ℕ) (v : Verdict) →
        SpellsCase e bytes a rest → IsTrueOf a v → IsTrueOfBytes bytes v }
{
    spelled_decks_keep();
    verdicts_are_those_of_the_deck();
}
