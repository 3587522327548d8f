//! The exact order of quotients.

ghost use Rattle.std.specs.Prelude.{◌≡◌, pos, ◌*ℤ◌, ◌≤ℤ◌, ◌<ℤ◌};
ghost use Rattle.std.specs.Int.{int_div_euclid, int_rem_euclid};
ghost use Rattle.lp_nums.specs.Fractions.{quotient_cmp};

use lp_base::product;
use std::cmp::Ordering;

/// v / e rounded down.
fn floor_of(v: i128, e: i64) -> i128
    requires { pos 1 ≤ℤ e }
    ensures { result ≡ int_div_euclid v e }
{
    v.div_euclid(i128::from(e))
}

/// What v / e rounded down leaves of v.
fn rest_of(v: i128, e: i64) -> i64
    requires { pos 1 ≤ℤ e }
    ensures value { result ≡ int_rem_euclid v e }
    ensures low { pos 0 ≤ℤ result }
    ensures high { result <ℤ e }
{
    v.rem_euclid(i128::from(e)) as i64
}

/// The order of v / e and z / d, exact. The whole parts are compared first, so that each product is
/// one of two numbers below 2^63.
pub fn compare(v: i128, e: i64, z: i128, d: i64) -> Ordering
    requires first { pos 1 ≤ℤ e }
    requires second { pos 1 ≤ℤ d }
    ensures { result ≡ quotient_cmp v e z d }
{
    match floor_of(v, e).cmp(&floor_of(z, d)) {
        Ordering::Equal => product(rest_of(v, e), d).cmp(&product(rest_of(z, d), e)),
        unequal => unequal,
    }
}
