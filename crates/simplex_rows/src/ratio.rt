//! Fractions of points, and of columns in terms of their variables.

use simplex_numbers::{Number, wide_gcd};

/// A fraction with a positive denominator, in lowest terms.
#[derive(Clone, Copy)]
pub struct Ratio {
    pub num: i128,
    pub den: i128,
}

/// The greatest common divisor of the sizes. None where it does not fit.
pub fn divisor_of(a: i128, b: i128) -> Option<i128> {
    i128::try_from(wide_gcd(a.unsigned_abs(), b.unsigned_abs())).ok()
}

impl Ratio {
    /// That of a numerator and a denominator. None where the denominator is 0 or a number is too
    /// large.
    pub fn of(num: i128, den: i128) -> Option<Ratio> {
        let size = divisor_of(num, den)?;
        let divisor = if den < 0 { size.wrapping_neg() } else { size };
        Some(Ratio {
            num: num.checked_div(divisor)?,
            den: den.checked_div(divisor)?,
        })
    }
}

/// The least common multiple, where it fits 64 bits.
pub fn common_multiple(a: i64, b: i128) -> Option<i64> {
    let a = i128::from(a);
    i64::of_wide(a.checked_div(divisor_of(a, b)?)?.checked_mul(b)?)
}
