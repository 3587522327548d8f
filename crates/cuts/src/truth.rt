//! Why a cut that passes the test is true, and what a true cut excludes.
ghost use Rattle.std.specs.Prelude.{ℕ, ℤ, List, Option};
ghost use Rattle.nogoods.specs.declared.choice.Choice.{Choice};
ghost use Rattle.lpcc_case.specs.Instance.{Instance};
ghost use Rattle.lpcc_case.specs.Points.{MeetsAll, IsTightAt};
ghost use Rattle.lpcc_case.specs.Points as points;
ghost use Rattle.lpcc_case.specs.Pieces.{BarsNothingLower, BarsOnlyEmptyPieces, Improves};
ghost use Rattle.cuts.specs.declared.cut.Cut.{Cut};
ghost use Rattle.cuts.specs.declared.cut.Cut.TheVariants.{Ray};
ghost use Rattle.cuts.specs.Cuts.{Passes, IsTrueCut, IsActive, no_good_of};

/// A cut that passes the test is true. Of the points that meet all constraints and are tight at
/// each of its choices, a ray cut leaves none, and each has a value of at least the bound of a
/// point cut.
pub fn passed_cut_is_true()
    ensures { (a : Instance) (cut : Cut) → Passes a cut → IsTrueCut a cut }
{}

/// The no-good of a true ray cut bars only pieces without points.
pub fn true_ray_bars_only_empty_pieces()
    ensures { (a : Instance) (ng : List Choice) (mult : List (ℕ × ℤ)) → IsTrueCut a (Ray ng mult) → BarsOnlyEmptyPieces a ng }
{}

/// A true cut that is active against the best point excludes no point that is lower than it:
/// none that meets all constraints and is tight at each of the cut's choices.
pub fn active_cut_excludes_nothing_lower()
    ensures { (a : Instance) (cut : Cut) (best : Option (points.Point a.columns)) (p : points.Point a.columns)
        → IsTrueCut a cut → IsActive a cut best → MeetsAll a p → IsTightAt a p (no_good_of cut) → Improves a p best → ⊥ }
{}

/// A cut that passes the test and is active against the best point bars only pieces in which no
/// point is lower than it. Without a best point a ray cut alone is active, and bars only pieces
/// without points.
pub fn passed_cut_bars_nothing_lower()
    ensures { (a : Instance) (cut : Cut) (best : Option (points.Point a.columns)) → Passes a cut → IsActive a cut best
        → BarsNothingLower a best (no_good_of cut) }
{}
