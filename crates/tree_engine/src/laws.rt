//! What a tree that holds shows.
ghost use Rattle.std.specs.Prelude.{List, [], Option};
ghost use Rattle.nogoods.specs.declared.choice.Choice.{Choice};
ghost use Rattle.lpcc_case.specs.Instance.{Instance};
ghost use Rattle.lpcc_case.specs.Verdicts.{IsTrueOf};
ghost use Rattle.lpcc_case.specs.declared.point.Point.{Point};
ghost use Rattle.lpcc_case.specs.declared.point.Ray.{Ray};
ghost use Rattle.lpcc_case.specs.declared.verdict.Verdict.{Verdict};
ghost use Rattle.lpcc_case.specs.declared.verdict.Verdict.TheVariants.{Unbounded};
ghost use Rattle.nogoods.specs.declared.choice.Side.{Side as Member};
ghost use Rattle.tree_engine.specs.Answers.{IsDirection};
ghost use Rattle.tree_engine.specs.Bests.{IsBest, IsNoHigher, IsVerdictOf};
ghost use Rattle.tree_engine.specs.Trees.{Holds};
ghost use Rattle.tree_engine.specs.declared.tree.Tree.{Tree as Shown};

/// Where a tree holds at the empty path for a best point that is feasible, no feasible point is
/// lower; without a best point, none is feasible.
pub fn tree_shows_its_verdict()
    ensures { (a : Instance) (best : Option Point) (tree : Shown) (v : Verdict) →
        IsBest a best → Holds a best [] tree → IsVerdictOf a best v → IsTrueOf a v }
{}

/// A tree that holds for a best point holds for each that is not above it.
pub fn lower_best_keeps_a_tree()
    ensures { (a : Instance) (old new : Option Point) (path : List Choice) (tree : Shown) →
        IsBest a old → IsBest a new → IsNoHigher new old → Holds a old path tree → Holds a new path tree }
{}

/// Where a point lies in a piece and a ray recedes for it, the cost falls without end.
pub fn direction_shows_unbounded()
    ensures { (a : Instance) (piece : List Member) (point : Point) (ray : Ray) → IsDirection a piece point ray → IsTrueOf a Unbounded }
{}
