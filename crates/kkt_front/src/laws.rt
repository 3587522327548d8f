//! Laws that say what the decks mean.
ghost use Rattle.std.specs.Prelude.{◌≡◌, ◌↔◌, ◌+◌, ℕ, length};
ghost use Rattle.decks.specs.Decks.{IsDeck};
ghost use Rattle.lpcc_case.specs.Points.{IsFeasible, Point};
ghost use Rattle.deck_case.specs.DeckCases.{case_of_deck};
ghost use Rattle.deck_case.specs.DeckPoints.{MeetsDeck};
ghost use Rattle.front_text.specs.Problems.{IsBilevel, IsLcp};
ghost use Rattle.front_text.specs.declared.problem.Bilevel.{Bilevel};
ghost use Rattle.front_text.specs.declared.problem.Lcp.{Lcp};
ghost use Rattle.kkt_front.specs.Decks.{bilevel_deck, lcp_deck};
ghost use Rattle.kkt_front.specs.Solutions.{IsLeastFollower, IsSolution, IsWithMultipliers};

/// A point meets the deck of a complementarity problem exactly where it is a solution. So it is
/// with the points that are feasible for the case, where the deck keeps the facts of a deck.
pub fn a_deck_is_met_by_the_solutions()
    ensures deck { (p : Lcp) (end : ℕ) (z : Point (length (lcp_deck p end).columns)) → IsLcp p →
        MeetsDeck (lcp_deck p end) z ↔ IsSolution p z }
    ensures case { (p : Lcp) (end : ℕ) (z : Point (length (lcp_deck p end).columns)) → IsLcp p → IsDeck (lcp_deck p end) →
        IsFeasible (case_of_deck (lcp_deck p end)) z ↔ IsSolution p z }
{}

/// A point meets the deck of a bilevel problem exactly where its variables meet all lines, and what
/// stands behind them are multipliers of y. So it is with the points that are feasible for the case,
/// where the deck keeps the facts of a deck.
pub fn a_deck_is_met_with_multipliers()
    ensures deck { (b : Bilevel) (bounds end : ℕ) (p : Point (length (bilevel_deck b bounds end).columns)) → IsBilevel b →
        MeetsDeck (bilevel_deck b bounds end) p ↔ IsWithMultipliers b p }
    ensures case { (b : Bilevel) (bounds end : ℕ) (p : Point (length (bilevel_deck b bounds end).columns)) → IsBilevel b → IsDeck (bilevel_deck b bounds end) →
        IsFeasible (case_of_deck (bilevel_deck b bounds end)) p ↔ IsWithMultipliers b p }
{}

/// Where y has multipliers, it is least in `follow` among those that meet the lines of `low` for
/// this x.
pub fn y_with_multipliers_is_least()
    ensures { (n : ℕ) (b : Bilevel) (p : Point n) → IsBilevel b → IsWithMultipliers b p → IsLeastFollower b p }
{}
