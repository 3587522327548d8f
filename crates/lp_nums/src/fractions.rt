//! Fractions in lowest terms.

ghost use Rattle.std.specs.Prelude.{◌≡◌, ◌^◌, ◌<◌, ◌≤◌, ℤ, pos, ◌*ℤ◌, ◌≤ℤ◌, unsigned_abs};
ghost use Rattle.std.specs.Int.{◌∣◌, IsGcd};
ghost use Rattle.lp_nums.specs.Fractions.{IsReduced, SameValue};

use crate::divisors::gcd;
use std::marker::Model;

/// A fraction in lowest terms with a denominator of at least 1. Contracts see the pair of the two
/// numbers.
#[derive(Clone, Copy, Debug, PartialEq, Eq)]
pub struct Frac {
    num: i128,
    den: i128,
}

impl Model for Frac {
    ghost use Rattle.lp_nums.specs.Fractions.{Fraction, IsReduced};

    ghost Value = { Fraction };

    ghost view = { λ f. record { num = f.num; den = f.den } };

    ghost invariant = { λ f. IsReduced (record { num = f.num; den = f.den }) };

    ghost inverse = { λ v. record { num = v.num; den = v.den } };
}

/// n divided by one of its divisors.
fn quotient(n: i128, divisor: i128) -> i128
    requires positive { pos 1 ≤ℤ divisor }
    requires divides { unsigned_abs divisor ∣ unsigned_abs n }
    ensures value { result *ℤ divisor ≡ n }
    ensures bound { unsigned_abs result ≤ unsigned_abs n }
{
    n / divisor
}

impl Frac {
    /// The whole number over 1.
    pub fn whole(num: i128) -> Frac
        ensures { result ≡ record { num = num; den = pos 1 } }
    {
        Frac { num, den: 1 }
    }

    /// The fraction num / den in lowest terms.
    pub fn reduced(num: i128, den: i128) -> Frac
        requires positive { pos 1 ≤ℤ den }
        requires room { unsigned_abs num < 2 ^ 127 }
        ensures value { SameValue result (record { num = num; den = den }) }
        ensures lowest { IsReduced result }
        ensures num_bound { unsigned_abs result.num ≤ unsigned_abs num }
        ensures den_bound { unsigned_abs result.den ≤ unsigned_abs den }
    {
        let common = gcd(num, den);
        Frac {
            num: quotient(num, common),
            den: quotient(den, common),
        }
    }

    pub fn num(&self) -> i128
        ensures value { result ≡ self.now.num }
        ensures lowest { IsReduced self.now }
    {
        self.num
    }

    /// At least 1.
    pub fn den(&self) -> i128
        ensures value { result ≡ self.now.den }
        ensures lowest { IsReduced self.now }
    {
        self.den
    }
}
