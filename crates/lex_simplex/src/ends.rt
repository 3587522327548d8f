//! What is read off the dictionary at the end of a walk.
ghost use Rattle.std.specs.Prelude.{◌≡◌, ◌<◌, ◌*ℤ◌, ℕ, List, length, IfOk, IfSome, IfNone};
ghost use Rattle.dict.specs.Dictionaries.{IsWideRow, row_at};
ghost use Rattle.dict.specs.Equations.{Equation};
ghost use Rattle.dict.specs.Forms.{IsDictionaryAt, IsWideDictionary, with_rows};
ghost use Rattle.walks.specs.Ends.{IsPointAt, IsRayAt, IsWideAt};
ghost use Rattle.walks.specs.Steps.{IsEntering, IsStageRow, goal};
ghost use Rattle.walks.specs.Walks.{IsOnWalk, IsStep};
ghost use Rattle.lex_simplex.specs.Rounds.{NoneLeaves};

use crate::next::is_down;
use crate::values::constraints_of;
use crate::walk::Walk;
use basic_solutions::{nonbasic_forms, nonbasic_forms_after, point_of, ray_of};
use cuts::WideAt;
use lpcc_case::{Case, Form, Point, Ray};
use nogoods::NoGood;
use std::alloc::{AllocError, Global};

/// The form that a stage raises or lowers.
pub fn goal_of(case: &Case, stage: u32) -> Form
    ensures { result ≡ goal case.now stage }
{
    if stage < constraints_of(case) {
        Form::Con(stage)
    } else {
        Form::Cost
    }
}

/// The end of a walk whose next step, at this row and column, leads to a wide dictionary.
pub fn wide_step(
    alloc: Global,
    case: &Case,
    tight: &NoGood,
    walk: &Walk,
    row: u32,
    col: u32,
) -> Result<WideAt, AllocError>
    requires on { IsOnWalk case.now tight.now walk.now }
    requires step { IsStep case.now tight.now walk.now row col }
    requires wide { (i : ℕ) × (at : ℕ) × IsWideRow row col walk.now.at i at }
    ensures { IfOk result (IsWideAt case.now tight.now) }
{
    let _constraints = case.constraints();
    let forms = nonbasic_forms_after(alloc, case, walk.dict(), row, col)?;
    Ok(WideAt {
        pivots: walk.steps(),
        forms,
    })
}

/// The end of a walk that has reached a wide dictionary: it ended one step before.
pub fn wide_here(
    alloc: Global,
    case: &Case,
    tight: &NoGood,
    walk: &Walk,
) -> Result<WideAt, AllocError>
    requires on { IsOnWalk case.now tight.now walk.now }
    requires some { 0 < walk.now.steps }
    requires wide { (rows : List Equation) → IsDictionaryAt case.now (with_rows rows walk.now.at) → IsWideDictionary (with_rows rows walk.now.at) }
    ensures { IfOk result (IsWideAt case.now tight.now) }
{
    let _constraints = case.constraints();
    let forms = nonbasic_forms(alloc, case, walk.dict())?;
    Ok(WideAt {
        pivots: walk.steps() - 1,
        forms,
    })
}

/// The point with all nonbasic forms at 0, after the last constraint's stage. None where the
/// dictionary is wide.
pub fn point_here(
    alloc: Global,
    case: &Case,
    tight: &NoGood,
    walk: &Walk,
) -> Result<Option<Point>, AllocError>
    requires on { IsOnWalk case.now tight.now walk.now }
    requires looked { walk.now.looked ≡ length case.now.constraints }
    requires last { walk.now.stage ≡ length case.now.constraints }
    ensures point { IfOk result (λ found. IfSome found (IsPointAt case.now tight.now)) }
    ensures value { IfOk result (λ found. IfSome found (λ q. ((row_at walk.now.at.rows (length case.now.constraints)).den *ℤ q.z) ≡ ((row_at walk.now.at.rows (length case.now.constraints)).constant *ℤ q.d))) }
    ensures some { IfOk result (λ found. IfNone found (0 < walk.now.steps)) }
    ensures wide { IfOk result (λ found. IfNone found ((rows : List Equation) → IsDictionaryAt case.now (with_rows rows walk.now.at) → IsWideDictionary (with_rows rows walk.now.at))) }
{
    let _constraints = case.constraints();
    point_of(alloc, case, walk.dict())
}

/// The direction in which the form at the column goes, where it enters in the last stage and no
/// form leaves. None where the dictionary is wide.
pub fn ray_here(
    alloc: Global,
    case: &Case,
    tight: &NoGood,
    walk: &Walk,
    row: u32,
    col: u32,
) -> Result<Option<Ray>, AllocError>
    requires on { IsOnWalk case.now tight.now walk.now }
    requires looked { walk.now.looked ≡ length case.now.constraints }
    requires last { walk.now.stage ≡ length case.now.constraints }
    requires row { IsStageRow case.now tight.now walk.now.stage walk.now.at row }
    requires enters { IsEntering case.now tight.now walk.now.stage walk.now.at row col }
    requires none { NoneLeaves case.now tight.now walk.now.stage walk.now.at row col }
    ensures ray { IfOk result (λ found. IfSome found (IsRayAt case.now tight.now)) }
    ensures some { IfOk result (λ found. IfNone found (0 < walk.now.steps)) }
    ensures wide { IfOk result (λ found. IfNone found ((rows : List Equation) → IsDictionaryAt case.now (with_rows rows walk.now.at) → IsWideDictionary (with_rows rows walk.now.at))) }
{
    let _constraints = case.constraints();
    let dict = walk.dict();
    let down = is_down(case, dict, walk.stage(), row, col);
    ray_of(alloc, case, dict, col, down)
}
