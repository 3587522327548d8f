//! Laws of the printed decks of problems.
ghost use Rattle.std.specs.Prelude.{◌↔◌, ℕ, length};
ghost use Rattle.deck_case.specs.DeckCases.{HasCase, case_of_deck};
ghost use Rattle.decks.specs.Texts.{Spells};
ghost use Rattle.decks.specs.declared.deck.Deck as decks;
ghost use Rattle.front_deck.specs.Meanings.{IsDeckOfBilevel, IsDeckOfLcp};
ghost use Rattle.front_text.specs.Problems.{IsBilevel, IsLcp};
ghost use Rattle.front_text.specs.declared.problem.Bilevel.{Bilevel};
ghost use Rattle.front_text.specs.declared.problem.Lcp.{Lcp};
ghost use Rattle.kkt_front.specs.DeckTexts.{bilevel_text, lcp_text};
ghost use Rattle.kkt_front.specs.Decks.{bilevel_deck, lcp_deck};
ghost use Rattle.kkt_front.specs.Solutions.{IsSolution, IsWithMultipliers};
ghost use Rattle.lpcc_case.specs.Points.{IsFeasible, Point};

/// The text of a problem's deck spells the deck, up to the end of the text, for the line of ENDATA
/// and the first line of BOUNDS that the text has.
pub fn printed_decks_are_spelled()
    ensures lcp { (p : Lcp) → IsLcp p → (end : ℕ) × Spells (lcp_text p) (lcp_deck p end) (length (lcp_text p)) }
    ensures bilevel { (b : Bilevel) → IsBilevel b → (bounds : ℕ) × (end : ℕ) × Spells (bilevel_text b) (bilevel_deck b bounds end) (length (bilevel_text b)) }
{}

/// Whatever deck the text of a complementarity problem's deck spells has a case, and the points that
/// are feasible for it are the solutions of the problem.
pub fn printed_lcp_decks_mean_their_problems()
    ensures case { (p : Lcp) (d : decks.Deck) (place : ℕ) → IsLcp p → Spells (lcp_text p) d place → HasCase d (case_of_deck d) }
    ensures points { (p : Lcp) (d : decks.Deck) (place : ℕ) (z : Point (length d.columns)) → IsLcp p → Spells (lcp_text p) d place → IsFeasible (case_of_deck d) z ↔ IsSolution p z }
{}

/// Whatever deck the text of a bilevel problem's deck spells has a case, and the points that are
/// feasible for it are those that meet all lines, with multipliers of y behind the variables.
pub fn printed_bilevel_decks_mean_their_problems()
    ensures case { (b : Bilevel) (d : decks.Deck) (place : ℕ) → IsBilevel b → Spells (bilevel_text b) d place → HasCase d (case_of_deck d) }
    ensures points { (b : Bilevel) (d : decks.Deck) (place : ℕ) (p : Point (length d.columns)) → IsBilevel b → Spells (bilevel_text b) d place → IsFeasible (case_of_deck d) p ↔ IsWithMultipliers b p }
{}

/// The text of a problem's deck is that of a deck that means the problem.
pub fn printed_decks_are_those_of_their_problems()
    ensures lcp { (p : Lcp) → IsLcp p → IsDeckOfLcp (lcp_text p) p }
    ensures bilevel { (b : Bilevel) → IsBilevel b → IsDeckOfBilevel (bilevel_text b) b }
{}
