//! What a true reason means for cuts.
ghost use Rattle.std.specs.Prelude.{ℕ, List, Option, All, Contains};
ghost use Rattle.nogoods.specs.declared.choice.Choice.{Choice};
ghost use Rattle.lpcc_case.specs.Instance.{Instance};
ghost use Rattle.lpcc_case.specs.NarrowPoints.{IsPointOf};
ghost use Rattle.lpcc_case.specs.declared.point.Point.{Point};
ghost use Rattle.cuts.specs.declared.cut.Cut.{Cut};
ghost use Rattle.cuts.specs.declared.reason.Reason.TheVariants.{Below};
ghost use Rattle.cuts.specs.Cuts.{IsTrueCut, no_good_of};
ghost use Rattle.reasons.specs.Reasons.{IsActiveAgainst, IsLimit, IsTrueReason};

/// Where a point below the limit is known for some choices, no true cut with choices among these is
/// active against the limit. So a choice with such a point for the other choices is needed.
pub fn no_cut_does_without_a_needed_choice()
    ensures { (a : Instance) (budget : ℕ) (limit : Option Point) (others : List Choice) (q : Point) (cut : Cut) →
        IsLimit a limit → IsTrueReason a budget limit others (Below q) → IsTrueCut a cut → IsActiveAgainst cut limit →
        All (Contains others) (no_good_of cut) → ⊥ }
{}
