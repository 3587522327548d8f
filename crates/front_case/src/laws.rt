//! That problems have decks and cases.
ghost use Rattle.std.specs.Prelude.{ℕ};
ghost use Rattle.decks.specs.Decks.{IsDeck};
ghost use Rattle.deck_case.specs.DeckCases.{HasCase, case_of_deck};
ghost use Rattle.front_text.specs.Problems.{IsBilevel, IsLcp};
ghost use Rattle.front_text.specs.declared.problem.Bilevel.{Bilevel};
ghost use Rattle.front_text.specs.declared.problem.Lcp.{Lcp};
ghost use Rattle.kkt_front.specs.Decks.{bilevel_deck, lcp_deck};

/// The decks of problems keep the facts of decks.
pub fn problems_have_decks()
    ensures lcp { (p : Lcp) (end : ℕ) → IsLcp p → IsDeck (lcp_deck p end) }
    ensures bilevel { (b : Bilevel) (bounds end : ℕ) → IsBilevel b → IsDeck (bilevel_deck b bounds end) }
{}

/// The decks of problems have cases: nothing in them is too wide for one, and they are small enough.
pub fn problems_have_cases()
    ensures lcp { (p : Lcp) (end : ℕ) → IsLcp p → HasCase (lcp_deck p end) (case_of_deck (lcp_deck p end)) }
    ensures bilevel { (b : Bilevel) (bounds end : ℕ) → IsBilevel b → HasCase (bilevel_deck b bounds end) (case_of_deck (bilevel_deck b bounds end)) }
{}
