//! The test of a cut.
ghost use Rattle.std.specs.Prelude.{◌≡◌, IfOk};
ghost use Rattle.cuts.specs.Cuts.{IsJudged, right_sum};
ghost use Rattle.cuts.specs.declared.cut.Cut.TheVariants as cut_of;

use crate::places::is_indexed;
use crate::signs::has_signs;
use crate::sums::{is_multiple_of_cost, right_sum};
use crate::{Cut, CutFault};
use lpcc_case::Case;
use nogoods::NoGood;

/// Tests a ray cut, given by its no-good and its multipliers, each with the number of its
/// constraint, counted from 0. The first fault counts, in the order in which `CutFault` lists
/// them. It takes no memory, and time linear in the choices and in the terms of the constraints.
pub fn check_ray(case: &Case, ng: &NoGood, mult: &[(u32, i64)]) -> Result<(), CutFault>
    ensures judged { IsJudged case.now (cut_of.Ray ng.now mult.now) result }
{
    if !is_indexed(case, ng, mult) {
        return Err(CutFault::Index);
    }
    if !has_signs(case, ng.choices(), mult) {
        return Err(CutFault::Sign);
    }
    if !is_multiple_of_cost(case, mult, 0) {
        return Err(CutFault::Sum);
    }
    if right_sum(case, mult) <= 0 {
        return Err(CutFault::Bound);
    }
    Ok(())
}

/// Tests a point cut whose bound is `v / e` with `v` the weighed right sides, given by its parts as
/// in `check_ray`, and gives this `v`. The weighed sum of the constraints is to be `e` times the
/// cost.
pub fn point_bound(case: &Case, ng: &NoGood, mult: &[(u32, i64)], e: i64) -> Result<i128, CutFault>
    ensures judged { IsJudged case.now (cut_of.Point ng.now mult.now e (right_sum case.now mult.now)) result }
    ensures value { IfOk result (λ v. v ≡ right_sum case.now mult.now) }
{
    if !is_indexed(case, ng, mult) {
        return Err(CutFault::Index);
    }
    if !has_signs(case, ng.choices(), mult) {
        return Err(CutFault::Sign);
    }
    if e < 1 || !is_multiple_of_cost(case, mult, e) {
        return Err(CutFault::Sum);
    }
    Ok(right_sum(case, mult))
}

/// Tests a point cut, given by its parts, as `point_bound` does. Its `v` is to be the weighed right
/// sides.
pub fn check_point(
    case: &Case,
    ng: &NoGood,
    mult: &[(u32, i64)],
    e: i64,
    v: i128,
) -> Result<(), CutFault>
    ensures judged { IsJudged case.now (cut_of.Point ng.now mult.now e v) result }
{
    if point_bound(case, ng, mult, e)? != v {
        return Err(CutFault::Bound);
    }
    Ok(())
}

/// Tests a cut, as `check_ray` and `check_point` do for its parts.
pub fn check_cut(case: &Case, cut: &Cut) -> Result<(), CutFault>
    ensures judged { IsJudged case.now cut.now result }
{
    match cut {
        Cut::Ray { ng, mult } => check_ray(case, ng, mult.as_slice()),
        Cut::Point { ng, mult, e, v } => check_point(case, ng, mult.as_slice(), *e, *v),
    }
}
