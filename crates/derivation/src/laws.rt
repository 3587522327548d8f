//! What a log says of pieces and of points.
ghost use Rattle.std.specs.Prelude.{◌≡◌, ℕ, All, Any, Contains, List, [], Option, length, true};
ghost use Rattle.nogoods.specs.declared.choice.Choice.{Choice};
ghost use Rattle.nogoods.specs.declared.choice.Side.{Side};
ghost use Rattle.nogoods.specs.Pieces.{Bars};
ghost use Rattle.lpcc_case.specs.Instance.{Instance};
ghost use Rattle.lpcc_case.specs.Points.{IsFeasible, Point};
ghost use Rattle.lpcc_case.specs.Pieces.{IsPiece, HoldsNoPoint, BarsNothingLower, BarsOnlyEmptyPieces, Improves};
ghost use Rattle.lpcc_case.specs.Verdicts.{IsInfeasible};
ghost use Rattle.derivation.specs.declared.step.Step.{Step};
ghost use Rattle.derivation.specs.HintRuns.{NamesBelow, closes};
ghost use Rattle.derivation.specs.Logs.{IsBarredByStart, IsLog, NamesPairs, StartsAreTrue, StartsBarNothingLower, StartsName, no_goods};

/// A no-good whose hint run closes over others bars no piece that none of those bars.
pub fn closed_run_bars_no_more()
    ensures { (earlier : List (List Choice)) (ng : List Choice) (hints : List ℕ) (sides : List Side) →
        All (NamesBelow (length sides)) earlier → closes earlier ng hints ≡ true →
        Bars ng sides → Any (λ e. Bars e sides) earlier }
{}

/// A no-good whose hint run closes over no-goods that bar only pieces without points bars only
/// pieces without points.
pub fn closed_run_bars_only_empty_pieces()
    ensures { (a : Instance) (earlier : List (List Choice)) (ng : List Choice) (hints : List ℕ) →
        All (NamesPairs a) earlier → All (BarsOnlyEmptyPieces a) earlier →
        closes earlier ng hints ≡ true → BarsOnlyEmptyPieces a ng }
{}

/// A no-good whose hint run closes over no-goods that bar only pieces without a point lower than
/// the best one bars only such pieces; without a best point, only pieces without points.
pub fn closed_run_bars_nothing_lower()
    ensures { (a : Instance) (best : Option (Point a.columns)) (earlier : List (List Choice)) (ng : List Choice) (hints : List ℕ) →
        All (NamesPairs a) earlier → All (BarsNothingLower a best) earlier →
        closes earlier ng hints ≡ true → BarsNothingLower a best ng }
{}

/// Each piece that a step of a log bars is barred by one of its starts.
pub fn steps_bar_no_more_than_starts()
    ensures { (log : List Step) (sides : List Side) → IsLog log → StartsName (length sides) log →
        Any (λ ng. Bars ng sides) (no_goods log) → IsBarredByStart log sides }
{}

/// Where the starts of a log bar only pieces without points, so does each of its steps.
pub fn steps_bar_only_empty_pieces()
    ensures { (a : Instance) (log : List Step) → IsLog log → StartsName (length a.pairs) log →
        StartsAreTrue a log → All (BarsOnlyEmptyPieces a) (no_goods log) }
{}

/// A log with an empty step bars every piece by its starts. Where the starts bar only pieces
/// without points, no piece has a point, and so no point is feasible.
pub fn log_with_an_empty_step_bars_every_piece()
    ensures by_starts { (log : List Step) (sides : List Side) → IsLog log →
        StartsName (length sides) log → Contains (no_goods log) [] → IsBarredByStart log sides }
    ensures pieces { (a : Instance) (log : List Step) → IsLog log → StartsName (length a.pairs) log →
        StartsAreTrue a log → Contains (no_goods log) [] →
        (sides : List Side) → IsPiece a sides → HoldsNoPoint a sides }
    ensures points { (a : Instance) (log : List Step) → IsLog log → StartsName (length a.pairs) log →
        StartsAreTrue a log → Contains (no_goods log) [] → IsInfeasible a }
{}

/// Where the starts of a log bar only pieces without a point lower than the best one, so does each
/// of its steps; and if one step is empty, no feasible point is lower than the best one.
pub fn steps_bar_nothing_lower()
    ensures steps { (a : Instance) (best : Option (Point a.columns)) (log : List Step) → IsLog log → StartsName (length a.pairs) log →
        StartsBarNothingLower a best log → All (BarsNothingLower a best) (no_goods log) }
    ensures points { (a : Instance) (best : Option (Point a.columns)) (log : List Step) → IsLog log → StartsName (length a.pairs) log →
        StartsBarNothingLower a best log → Contains (no_goods log) [] → (p : Point a.columns) → IsFeasible a p → Improves a p best → ⊥ }
{}
