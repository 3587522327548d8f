//! Laws that show that the definitions mean what they should.
ghost use Rattle.std.specs.Prelude.{◌↔◌, ◌≤ℤ◌, ℕ, ℤ, List, pos};
ghost use Rattle.nogoods.specs.declared.choice.Side.{Side as Member};
ghost use Rattle.lpcc_case.specs.declared.constraint.Constraint.{Constraint as Relation};
ghost use Rattle.lpcc_case.specs.Instance.{Instance};
ghost use Rattle.lpcc_case.specs.Points.{Point, Meets, MeetsAll, IsTight, IsFeasible, IsLower, IsMultiple};
ghost use Rattle.lpcc_case.specs.Pieces.{IsPiece, LiesIn};
ghost use Rattle.lpcc_case.specs.Verdicts.{HasValue, IsTrueOf, SameVerdict};
ghost use Rattle.lpcc_case.specs.declared.verdict.Verdict.{Verdict as Claim};
ghost use Rattle.lpcc_case.specs.declared.point.Point.{Point as NarrowPoint};
ghost use Rattle.lpcc_case.specs.NarrowPoints.{IsPointFor, IsPointOf, Means, IsBelow};
ghost use Rattle.lpcc_case.specs.Values.{value_at};
ghost use Rattle.lp_nums.specs.Fractions.{SameValue};

/// No point is lower than itself.
pub fn lower_is_irreflexive()
    ensures { (a : Instance) (p : Point a.columns) → IsLower a p p → ⊥ }
{}

/// Lower than a point that is lower than another is lower than that one.
pub fn lower_is_transitive()
    ensures { (a : Instance) (p q r : Point a.columns) → IsLower a p q → IsLower a q r → IsLower a p r }
{}

/// Which constraints a point meets, and at which it is tight, does not change where all its
/// numbers, the denominator with them, are multiplied by a whole number of at least 1.
pub fn multiples_meet_the_same()
    ensures meets { (n k : ℕ) (c : Relation) (p q : Point n) → IsMultiple k p q → Meets q c ↔ Meets p c }
    ensures tight { (n k : ℕ) (c : Relation) (p q : Point n) → IsMultiple k p q → IsTight q c ↔ IsTight p c }
{}

/// A point is feasible exactly where it lies in some piece.
pub fn feasible_exactly_in_a_piece()
    ensures { (a : Instance) (p : Point a.columns) →
        IsFeasible a p ↔ ((sides : List Member) × IsPiece a sides × LiesIn a sides p) }
{}

/// Two verdicts that are true of one instance are the same: no two different ones are true, and
/// two optimal ones have the same value.
pub fn true_verdicts_are_the_same()
    ensures { (a : Instance) (v w : Claim) → pos 1 ≤ℤ a.scale → IsTrueOf a v → IsTrueOf a w → SameVerdict v w }
{}

/// Each point for a case means a point.
pub fn point_for_a_case_means_one()
    ensures { (a : Instance) (q : NarrowPoint) → IsPointFor a q → (p : Point a.columns) × Means q p }
{}

/// A point of a case is below another exactly where what it means is lower.
pub fn point_is_below_where_lower()
    ensures { (a : Instance) (q r : NarrowPoint) (s t : Point a.columns) → IsPointOf a q → IsPointOf a r
        → Means q s → Means r t → IsBelow q r ↔ IsLower a s t }
{}

/// The value of a point of a case is that of what it means.
pub fn value_is_that_of_the_point()
    ensures { (a : Instance) (q : NarrowPoint) (p : Point a.columns) (numerator : ℤ) (denominator : ℕ) → IsPointOf a q
        → Means q p → SameValue (record { num = numerator; den = pos denominator }) (value_at a q.z q.d) → HasValue a p numerator denominator }
{}
