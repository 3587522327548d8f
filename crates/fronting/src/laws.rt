//! What the definitions of inputs come to.
ghost use Rattle.std.specs.Prelude.{◌≡◌, ℕ, List, Result};
ghost use Rattle.front_text.specs.Texts.{FailsAsBilevel, FailsAsLcp, SpellsBilevel, SpellsLcp};
ghost use Rattle.front_text.specs.declared.problem.Bilevel.{Bilevel as LowerAndUpper};
ghost use Rattle.front_text.specs.declared.problem.Lcp.{Lcp as Complementarity};
ghost use Rattle.fronting.specs.Inputs.{IsRead};
ghost use Rattle.fronting.specs.declared.refusal.FrontRefusal.{FrontRefusal as Reason};

/// What is read of the text of a problem is determined by the bytes.
pub fn a_text_is_read_once()
    ensures lcp { (limit : ℕ) (bytes : List ℕ) (x y : Result Complementarity Reason) →
        IsRead SpellsLcp FailsAsLcp limit bytes x → IsRead SpellsLcp FailsAsLcp limit bytes y → x ≡ y }
    ensures bilevel { (limit : ℕ) (bytes : List ℕ) (x y : Result LowerAndUpper Reason) →
        IsRead SpellsBilevel FailsAsBilevel limit bytes x → IsRead SpellsBilevel FailsAsBilevel limit bytes y → x ≡ y }
{}
