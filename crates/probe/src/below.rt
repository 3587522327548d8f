//! The test of a point.
ghost use Rattle.std.specs.Prelude.{◌≡◌, ◌≤ℤ◌, ◌↔◌, pos, IsTrue, IfSome};
ghost use Rattle.std.specs.Option.{option_copied};
ghost use Rattle.lpcc_case.specs.NarrowPoints.{IsPointOf};
ghost use Rattle.lpcc_case.specs.Pieces.{NamesPairs};
ghost use Rattle.reasons.specs.Reasons.{Has, IsIn, IsLimit, IsUnder};
ghost use Rattle.probe.specs.Answers.{IsPointBelow};

use general_simplex::Coordinates;
use lp_base::{Sequence, product};
use lpcc_case::{Case, Point, is_of, is_tight_at, lower, meets};
use nogoods::NoGood;
use std::alloc::AllocError;

/// Whether the point is lower than the limit, where there is one.
pub fn is_under(case: &Case, point: &Point, limit: Option<&Point>) -> bool
    requires positive { pos 1 ≤ℤ point.now.d }
    requires limit { IsLimit case.now (option_copied limit) }
    ensures { IsTrue result ↔ IsUnder point.now (option_copied limit.entry) }
{
    match limit {
        Some(limit) => lower(point, limit),
        None => true,
    }
}

/// Whether the point meets all constraints and is tight at each of the choices.
fn is_in(case: &Case, tight: &NoGood, point: &Point) -> bool
    requires named { NamesPairs case.now tight.now }
    requires point { IsPointOf case.now point.now }
    ensures { IsTrue result ↔ Has case.now point.now (IsIn case.now tight.now) }
{
    meets(case, point) && is_tight_at(case, tight, point)
}

/// Whether the point is one of the case, meets all constraints, is tight at each of the choices, and
/// is lower than the limit, where there is one. It takes no memory.
pub fn is_point_below(case: &Case, tight: &NoGood, limit: Option<&Point>, point: &Point) -> bool
    requires named { NamesPairs case.now tight.now }
    requires limit { IsLimit case.now (option_copied limit) }
    ensures { IsTrue result ↔ IsPointBelow case.now (option_copied limit.entry) tight.now point.now }
{
    is_of(case, point) && is_under(case, point, limit) && is_in(case, tight, point)
}

fn sum_of(cost: &[i64], numbers: &[i64]) -> i128 {
    let mut sum = 0_i128;
    for (a, b) in cost.iter().zip(numbers) {
        sum = sum.wrapping_add(product(*a, *b));
    }
    sum
}

/// The point of numbers that were found. None where it fails its test.
pub fn tested_point(
    case: &Case,
    tight: &NoGood,
    limit: Option<&Point>,
    found: Coordinates,
) -> Option<Point>
    requires named { NamesPairs case.now tight.now }
    requires limit { IsLimit case.now (option_copied limit) }
    ensures { IfSome result (IsPointBelow case.now (option_copied limit.entry) tight.now) }
{
    let Coordinates { d, x } = found;
    let z = sum_of(case.cost(), x.as_slice());
    let point = Point {
        d,
        x: Sequence::of_vec(x),
        z,
    };
    if !is_point_below(case, tight, limit, &point) {
        return None;
    }
    Some(point)
}

fn moved(x: i64, by: i64, d: i64) -> Option<i64> {
    x.checked_add(by.checked_mul(d)?)
}

/// The numbers a whole direction further on. None where they do not fit.
pub fn moved_along(
    from: Coordinates,
    ray: &Coordinates,
) -> Result<Option<Coordinates>, AllocError> {
    let Coordinates { d, x } = from;
    let mut numbers = Vec::with_capacity(*x.allocator(), x.len())?;
    for (a, b) in x.iter().zip(ray.x.as_slice()) {
        let Some(number) = moved(*a, *b, d) else {
            return Ok(None);
        };
        numbers.push(number)?;
    }
    Ok(Some(Coordinates { d, x: numbers }))
}
