//! The solve of a case with tight choices.
ghost use Rattle.std.specs.Prelude.{◌≡◌, ◌≤◌, ◌<◌, ◌+◌, ℕ, true, IfOk, length};
ghost use Rattle.lpcc_case.specs.Pieces.{NamesPairs};
ghost use Rattle.orders.specs.Counts.{choose};
ghost use Rattle.walks.specs.Duals.{NoneHelps};
ghost use Rattle.walks.specs.Steps.{IsEntering, IsStageRow, is_last};
ghost use Rattle.walks.specs.Walks.{IsOnWalk};
ghost use Rattle.lex_simplex.specs.Answers.{IsAnswer, IsNotSpent};
ghost use Rattle.lex_simplex.specs.Rounds.{IsEnd, IsInconsistent, NoneLeaves};

use crate::answer::LpAnswer;
use crate::ends::{goal_of, point_here, ray_here, wide_here, wide_step};
use crate::marks::fixed_marks;
use crate::stages::run;
use crate::values::constraints_of;
use crate::walk::{End, Walk};
use basic_solutions::{lowest_cost_cut, stuck_exchange_cut, stuck_stage_cut};
use cuts::SpentAt;
use lpcc_case::Case;
use nogoods::NoGood;
use std::alloc::{AllocError, Global};

/// The answer where a fixed constraint cannot be exchanged.
fn inconsistent(
    alloc: Global,
    case: &Case,
    tight: &NoGood,
    walk: &Walk,
    row: u32,
) -> Result<LpAnswer, AllocError>
    requires named { NamesPairs case.now tight.now }
    requires on { IsOnWalk case.now tight.now walk.now }
    requires end { IsInconsistent case.now tight.now walk.now.looked walk.now.at row }
    ensures { (budget : ℕ) → IfOk result (IsAnswer case.now tight.now budget) }
{
    let _constraints = case.constraints();
    let cut = stuck_exchange_cut(alloc, case, tight, walk.dict(), walk.looked(), row)?;
    Ok(LpAnswer::Infeasible(cut))
}

/// The answer where no form can enter in the stage of a constraint.
fn infeasible(
    alloc: Global,
    case: &Case,
    tight: &NoGood,
    walk: &Walk,
    row: u32,
) -> Result<LpAnswer, AllocError>
    requires named { NamesPairs case.now tight.now }
    requires on { IsOnWalk case.now tight.now walk.now }
    requires stage { walk.now.stage < length case.now.constraints }
    requires row { IsStageRow case.now tight.now walk.now.stage walk.now.at row }
    requires none { NoneHelps case.now tight.now (is_last case.now walk.now.stage) walk.now.at row }
    ensures { (budget : ℕ) → IfOk result (IsAnswer case.now tight.now budget) }
{
    let _constraints = case.constraints();
    let cut = stuck_stage_cut(alloc, case, tight, walk.dict(), walk.stage(), row)?;
    Ok(LpAnswer::Infeasible(cut))
}

/// The answer where no form can enter for the cost.
fn lowest(alloc: Global, case: &Case, tight: &NoGood, walk: &Walk) -> Result<LpAnswer, AllocError>
    requires named { NamesPairs case.now tight.now }
    requires on { IsOnWalk case.now tight.now walk.now }
    requires looked { walk.now.looked ≡ length case.now.constraints }
    requires last { walk.now.stage ≡ length case.now.constraints }
    requires none { NoneHelps case.now tight.now true walk.now.at (length case.now.constraints) }
    ensures { (budget : ℕ) → IfOk result (IsAnswer case.now tight.now budget) }
{
    let _constraints = case.constraints();
    match point_here(alloc, case, tight, walk)? {
        Some(point) => {
            let cut = lowest_cost_cut(alloc, case, tight, walk.dict(), &point)?;
            Ok(LpAnswer::Optimum(point, cut))
        },
        None => Ok(LpAnswer::Wide(wide_here(alloc, case, tight, walk)?)),
    }
}

/// The answer where a form enters in the last stage and none leaves.
fn unbounded(
    alloc: Global,
    case: &Case,
    tight: &NoGood,
    walk: &Walk,
    row: u32,
    col: u32,
) -> Result<LpAnswer, AllocError>
    requires on { IsOnWalk case.now tight.now walk.now }
    requires looked { walk.now.looked ≡ length case.now.constraints }
    requires last { walk.now.stage ≡ length case.now.constraints }
    requires row { IsStageRow case.now tight.now walk.now.stage walk.now.at row }
    requires enters { IsEntering case.now tight.now walk.now.stage walk.now.at row col }
    requires none { NoneLeaves case.now tight.now walk.now.stage walk.now.at row col }
    ensures { (budget : ℕ) → IfOk result (IsAnswer case.now tight.now budget) }
{
    let Some(point) = point_here(alloc, case, tight, walk)? else {
        return Ok(LpAnswer::Wide(wide_here(alloc, case, tight, walk)?));
    };
    match ray_here(alloc, case, tight, walk, row, col)? {
        Some(ray) => Ok(LpAnswer::Unbounded(point, ray)),
        None => Ok(LpAnswer::Wide(wide_here(alloc, case, tight, walk)?)),
    }
}

/// The answer where no form can enter in the stage in which the walk stands.
fn stuck(
    alloc: Global,
    case: &Case,
    tight: &NoGood,
    walk: &Walk,
    row: u32,
    pivots: u64,
) -> Result<LpAnswer, AllocError>
    requires named { NamesPairs case.now tight.now }
    requires on { IsOnWalk case.now tight.now walk.now }
    requires end { IsEnd case.now tight.now pivots walk.now (End.Stuck row) }
    ensures { IfOk result (IsAnswer case.now tight.now pivots) }
{
    let _constraints = case.constraints();
    if walk.stage() < constraints_of(case) {
        infeasible(alloc, case, tight, walk, row)
    } else {
        lowest(alloc, case, tight, walk)
    }
}

/// The answer at the end of a walk.
fn answer_of(
    alloc: Global,
    case: &Case,
    tight: &NoGood,
    walk: &Walk,
    end: End,
    pivots: u64,
) -> Result<LpAnswer, AllocError>
    requires named { NamesPairs case.now tight.now }
    requires on { IsOnWalk case.now tight.now walk.now }
    requires end { IsEnd case.now tight.now pivots walk.now end }
    ensures { IfOk result (IsAnswer case.now tight.now pivots) }
{
    match end {
        End::Inconsistent(row) => inconsistent(alloc, case, tight, walk, row),
        End::Stuck(row) => stuck(alloc, case, tight, walk, row, pivots),
        End::Open(row, col) => unbounded(alloc, case, tight, walk, row, col),
        End::Wide(row, col) => Ok(LpAnswer::Wide(wide_step(alloc, case, tight, walk, row, col)?)),
        End::Spent => Ok(LpAnswer::Spent(SpentAt {
            stage: goal_of(case, walk.stage()),
            pivots,
        })),
    }
}

/// Minimises the cost over the points that meet the constraints and are tight at each of the
/// choices, by the walk of the case and these choices, with at most so many pivots in a stage. With
/// as many pivots as there are choices of the columns among the columns and the constraints the
/// answer is never `Spent`. Exchanges of equations and of chosen constraints do not count.
///
/// # Errors
///
/// Want of memory alone.
pub fn solve(
    alloc: Global,
    case: &Case,
    tight: &NoGood,
    pivots: u64,
) -> Result<LpAnswer, AllocError>
    requires named { NamesPairs case.now tight.now }
    ensures answer { IfOk result (IsAnswer case.now tight.now pivots) }
    ensures enough { choose (case.now.columns + length case.now.constraints) case.now.columns ≤ pivots → IfOk result IsNotSpent }
{
    let _constraints = case.constraints();
    let fixed = fixed_marks(alloc, case, tight)?;
    let mut walk = Walk::start(alloc, case)?;
    let end = run(case, tight, &fixed, &mut walk, pivots)?;
    answer_of(alloc, case, tight, &walk, end, pivots)
}
