//! Sums of products of a case's numbers with narrow ones, each below 2^126.
ghost use Rattle.std.specs.Prelude.{◌≡◌, ◌<◌, ◌≤◌, ◌^◌, ◌+ℤ◌, ◌*ℤ◌, All, length, unsigned_abs};
ghost use Rattle.lp_base.specs.Numbers.{IsNarrow};
ghost use Rattle.lp_base.specs.Sums.{dot};
ghost use Rattle.lpcc_case.specs.Cases.{FitsCase, IsConstraint};
ghost use Rattle.lpcc_case.specs.NarrowPoints.{AreNumbersOf};
ghost use Rattle.lpcc_case.specs.Points.{left_side};

use crate::{Case, Constraint, MOST_COLUMNS};
use lp_base::add_product;

/// The left side of a constraint at these numbers, one for each column.
pub fn left_side(constraint: &Constraint, numbers: &[i64]) -> i128
    requires form { IsConstraint (length numbers.now) constraint.now }
    requires few { length numbers.now ≤ MOST_COLUMNS }
    requires narrow { All IsNarrow numbers.now }
    ensures { result ≡ left_side constraint.now.terms numbers.now }
{
    let mut sum = 0;
    for term in constraint.terms.as_slice() {
        sum = add_product(sum, term.1, numbers[term.0 as usize]);
    }
    sum
}

/// The sum of the costs times these numbers, narrow ones, one for each column. It takes no memory.
pub fn cost_of(case: &Case, numbers: &[i64]) -> i128
    requires { AreNumbersOf case.now numbers.now }
    ensures { result ≡ dot case.now.cost numbers.now }
{
    let mut sum = 0;
    for (j, cost) in case.cost().iter().enumerate() {
        sum = add_product(sum, *cost, numbers[j]);
    }
    sum
}
