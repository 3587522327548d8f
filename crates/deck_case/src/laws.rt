//! Laws that say that the case means the deck, and that a deck has a case or one fault.
ghost use Rattle.std.specs.Prelude.{◌≡◌, ◌↔◌, ◌⊎◌, ℕ, ℤ, List, Some, pos, ◌*ℤ◌, length, slice_get};
ghost use Rattle.lp_nums.specs.Fractions.{Fraction, SameValue};
ghost use Rattle.sense.specs.Senses.{signed};
ghost use Rattle.lpcc_case.specs.Instance.{Instance};
ghost use Rattle.lpcc_case.specs.Points.{Point, IsFeasible, cost_at};
ghost use Rattle.lpcc_case.specs.Cases.{IsCase};
ghost use Rattle.lpcc_case.specs.Verdicts.{HasValue, IsTrueOf};
ghost use Rattle.lpcc_case.specs.declared.verdict.Verdict.{Verdict};
ghost use Rattle.decks.specs.declared.deck.Deck.{Deck};
ghost use Rattle.decks.specs.declared.deck.Row.{Row};
ghost use Rattle.decks.specs.Decks.{IsDeck};
ghost use Rattle.deck_case.specs.declared.fault.CaseFault.{CaseFault};
ghost use Rattle.deck_case.specs.DeckCases.{HasCase, case_of_deck};
ghost use Rattle.deck_case.specs.DeckPoints.{MeetsDeck, objective_value, row_value};
ghost use Rattle.deck_case.specs.DeckVerdicts.{IsTrueOfDeck, relaxed, relaxed_deck};
ghost use Rattle.deck_case.specs.Faults.{HasCaseFault};
ghost use Rattle.deck_case.specs.Multipliers.{ArePositive, IsLeastMultiplier, multiplier};

/// A point is feasible for the case exactly where each row but the objective is within its sides
/// there, each column within its bounds, in each pair of PAIRS a column is 0 or at its upper bound or
/// a row at its right-hand side, and of the items of each group, by place, at most one is not.
pub fn feasible_exactly_where_the_deck_is_met()
    ensures { (d : Deck) (p : Point (length d.columns)) → IsDeck d →
        IsFeasible (case_of_deck d) p ↔ MeetsDeck d p }
{}

/// The cost of a point over the scale, with the other sign where the objective is to be greatest, is
/// the sum over the objective's entries.
pub fn cost_is_the_objective()
    ensures { (d : Deck) (p : Point (length d.columns)) → IsDeck d →
        SameValue (row_value d d.objective p)
        (record { num = signed d.sense (cost_at (case_of_deck d) p); den = (case_of_deck d).scale *ℤ pos p.d }) }
{}

/// The value of a point is the objective with its constant.
pub fn value_is_the_objective_with_its_constant()
    ensures { (d : Deck) (p : Point (length d.columns)) (r : Row) (n : ℤ) (m : ℕ) → IsDeck d →
        slice_get d.rows d.objective ≡ Some r →
        HasValue (case_of_deck d) p n m ↔ SameValue (objective_value d r p) (record { num = n; den = pos m }) }
{}

/// The multiplier of fractions clears their denominators, and no lesser positive number does.
pub fn multiplier_is_the_least_that_clears()
    ensures { (fs : List Fraction) → ArePositive fs → IsLeastMultiplier fs (multiplier fs) }
{}

/// A deck has at most one case.
pub fn case_is_determined()
    ensures { (d : Deck) (a b : Instance) → HasCase d a → HasCase d b → a ≡ b }
{}

/// A deck has at most one fault of its case.
pub fn fault_is_determined()
    ensures { (d : Deck) (f g : CaseFault) → HasCaseFault d f → HasCaseFault d g → f ≡ g }
{}

/// A deck has a case exactly where it has no fault of its case.
pub fn case_exactly_without_a_fault()
    ensures one { (d : Deck) → ((a : Instance) × HasCase d a) ⊎ ((f : CaseFault) × HasCaseFault d f) }
    ensures not_both { (d : Deck) (a : Instance) (f : CaseFault) → HasCase d a → HasCaseFault d f → ⊥ }
{}

/// The verdicts that are true of the case of a deck are those that are true of the deck.
pub fn verdicts_are_those_of_the_deck()
    ensures { (d : Deck) (a : Instance) (v : Verdict) → IsDeck d → HasCase d a → IsTrueOf a v ↔ IsTrueOfDeck d v }
{}

/// So it is of the relaxations, in which the pairs and the groups are left out.
pub fn relaxed_verdicts_are_those_of_the_relaxed_deck()
    ensures { (d : Deck) (a : Instance) (v : Verdict) → IsDeck d → HasCase d a →
        IsTrueOf (relaxed a) v ↔ IsTrueOfDeck (relaxed_deck d) v }
{}

/// The case of a deck keeps the limits of a case.
pub fn a_decks_case_keeps_the_limits()
    ensures { (d : Deck) (a : Instance) → IsDeck d → HasCase d a → IsCase a }
{}
