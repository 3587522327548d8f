//! Whether the numbers of a point are those of a point of a case.
ghost use Rattle.std.specs.Prelude.{◌↔◌, All, IsTrue};
ghost use Rattle.lp_base.specs.Numbers.{IsNarrow};
ghost use Rattle.lpcc_case.specs.NarrowPoints.{AreNumbersOf, IsPointFor, IsPointOf};

use crate::sums::cost_of;
use crate::{Case, Point};

fn are_narrow(numbers: &[i64]) -> bool
    ensures { IsTrue result ↔ All IsNarrow numbers.now }
{
    numbers.iter().all(|number| *number != i64::MIN)
}

fn are_numbers_of(case: &Case, numbers: &[i64]) -> bool
    ensures { IsTrue result ↔ AreNumbersOf case.now numbers.now }
{
    numbers.len() == case.columns() as usize && are_narrow(numbers)
}

fn is_point_for(case: &Case, point: &Point) -> bool
    ensures { IsTrue result ↔ IsPointFor case.now point.now }
{
    point.d >= 1 && are_numbers_of(case, point.x.as_slice())
}

/// Whether the point has a narrow number for each column and a denominator of at least 1, and its
/// `z` is the sum of the costs times these numbers. It takes no memory.
pub fn is_of(case: &Case, point: &Point) -> bool
    ensures { IsTrue result ↔ IsPointOf case.now point.now }
{
    is_point_for(case, point) && point.z == cost_of(case, point.x.as_slice())
}
