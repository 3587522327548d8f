//! The order of points by their cost, and the value of a point.
ghost use Rattle.std.specs.Prelude.{◌≡◌, ◌<◌, ◌≤◌, ◌^◌, ◌↔◌, ◌+ℤ◌, ◌*ℤ◌, ◌≤ℤ◌, pos, IfOk, IsTrue, string_bytes, unsigned_abs};
ghost use Rattle.lpcc_case.specs.NarrowPoints.{IsBelow};
ghost use Rattle.lpcc_case.specs.Values.{IsValue, IsValueText};

use crate::{Case, Point};
use lp_base::product;
use lp_nums::{Frac, compare};
use std::alloc::{AllocError, Global};
use std::cmp::Ordering;

/// Whether the cost `z / d` of one point is below that of the other, exact. It takes no memory.
pub fn lower(a: &Point, b: &Point) -> bool
    requires first { pos 1 ≤ℤ a.now.d }
    requires second { pos 1 ≤ℤ b.now.d }
    ensures { IsTrue result ↔ IsBelow a.now b.now }
{
    compare(a.z, a.d, b.z, b.d) == Ordering::Less
}

/// The cost with the offset.
fn with_offset(case: &Case, point: &Point) -> i128
    requires positive { pos 1 ≤ℤ point.now.d }
    requires room { unsigned_abs point.now.z ≤ 2 ^ 126 }
    ensures value { result ≡ point.now.z +ℤ (case.now.offset *ℤ point.now.d) }
    ensures small { unsigned_abs result < 2 ^ 127 }
{
    point.z + product(case.offset(), point.d)
}

fn denominator(case: &Case, point: &Point) -> i128
    requires { pos 1 ≤ℤ point.now.d }
    ensures value { result ≡ case.now.scale *ℤ point.now.d }
    ensures positive { pos 1 ≤ℤ result }
{
    product(case.scale(), point.d)
}

/// The value of the point: `(z + offset * d) / (scale * d)`, negated where the objective is to be
/// greatest, in lowest terms. It takes no memory.
pub fn value_of(case: &Case, point: &Point) -> Frac
    requires positive { pos 1 ≤ℤ point.now.d }
    requires room { unsigned_abs point.now.z ≤ 2 ^ 126 }
    ensures { IsValue case.now point.now.z point.now.d result }
{
    Frac::reduced(
        case.sense().signed(with_offset(case, point)),
        denominator(case, point),
    )
}

/// The text of `value_of`: `N`, or `N/D` where the denominator is not 1.
pub fn value_text(alloc: Global, case: &Case, point: &Point) -> Result<String, AllocError>
    requires positive { pos 1 ≤ℤ point.now.d }
    requires room { unsigned_abs point.now.z ≤ 2 ^ 126 }
    ensures { IfOk result (λ text. IsValueText case.now point.now.z point.now.d (string_bytes text)) }
{
    value_of(case, point).to_string(alloc)
}
