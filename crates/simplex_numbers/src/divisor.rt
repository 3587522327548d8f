//! Divisors that test and divide without a division: by a shift, and by the inverse of their odd
//! part modulo a power of two.

use crate::gcd::{odd_part, wide_odd_part};

/// A divisor of numbers of 64 bits.
#[derive(Clone, Copy)]
pub struct NarrowDivisor {
    twos: u32,
    /// The bits below its factors of two.
    mask: u64,
    /// The inverse of the odd part.
    inverse: u64,
    /// As large as a quotient by the odd part may be.
    largest_quotient: u64,
}

/// Newton's iteration: each turn doubles the bits that are right, of which there are three at first.
#[inline(always)]
fn inverse_of_odd(a: u64) -> u64 {
    let mut x = a;
    for _ in 0..5 {
        x = x.wrapping_mul(2_u64.wrapping_sub(a.wrapping_mul(x)));
    }
    x
}

impl NarrowDivisor {
    /// That of a size above 0.
    #[inline]
    pub fn of(size: u64) -> NarrowDivisor {
        let twos = size.trailing_zeros();
        let odd = odd_part(size);
        NarrowDivisor {
            twos,
            mask: 1_u64.wrapping_shl(twos).wrapping_sub(1),
            inverse: inverse_of_odd(odd),
            largest_quotient: u64::MAX.checked_div(odd).unwrap_or(0),
        }
    }

    /// Whether it divides the size.
    #[inline(always)]
    pub fn divides(self, size: u64) -> bool {
        size & self.mask == 0
            && size.wrapping_shr(self.twos).wrapping_mul(self.inverse) <= self.largest_quotient
    }

    /// The quotient of a number that it divides.
    #[inline(always)]
    pub fn quotient(self, number: i64) -> i64 {
        number
            .wrapping_shr(self.twos)
            .wrapping_mul(self.inverse.cast_signed())
    }
}

/// A divisor of numbers of 128 bits.
#[derive(Clone, Copy)]
pub struct WideDivisor {
    twos: u32,
    mask: u128,
    inverse: u128,
    largest_quotient: u128,
}

/// As `inverse_of_odd`.
#[inline(always)]
pub fn wide_inverse_of_odd(a: u128) -> u128 {
    let mut x = a;
    for _ in 0..6 {
        x = x.wrapping_mul(2_u128.wrapping_sub(a.wrapping_mul(x)));
    }
    x
}

impl WideDivisor {
    /// That of a size above 0.
    #[inline]
    pub fn of(size: u128) -> WideDivisor {
        let twos = size.trailing_zeros();
        let odd = wide_odd_part(size);
        WideDivisor {
            twos,
            mask: 1_u128.wrapping_shl(twos).wrapping_sub(1),
            inverse: wide_inverse_of_odd(odd),
            largest_quotient: u128::MAX.checked_div(odd).unwrap_or(0),
        }
    }

    /// Whether it divides the size.
    #[inline(always)]
    pub fn divides(self, size: u128) -> bool {
        size & self.mask == 0
            && size.wrapping_shr(self.twos).wrapping_mul(self.inverse) <= self.largest_quotient
    }

    /// The quotient of a number that it divides.
    #[inline(always)]
    pub fn quotient(self, number: i128) -> i128 {
        number
            .wrapping_shr(self.twos)
            .wrapping_mul(self.inverse.cast_signed())
    }
}
