//! Whole numbers of 256 bits in two's complement, as far as products of rows need them.

use crate::divisor::wide_inverse_of_odd;
use crate::gcd::wide_gcd;

const LOW_HALF: u128 = u64::MAX as u128;

/// `high` times 2^128 and `low`, modulo 2^256.
#[derive(Clone, Copy)]
pub struct Long {
    high: u128,
    low: u128,
}

/// The product of two sizes.
fn product_of_sizes(a: u128, b: u128) -> Long {
    let (a0, a1) = (a & LOW_HALF, a.wrapping_shr(64));
    let (b0, b1) = (b & LOW_HALF, b.wrapping_shr(64));
    let first = a0.wrapping_mul(b0);
    let second = a0.wrapping_mul(b1);
    let third = a1.wrapping_mul(b0);
    let middle = first
        .wrapping_shr(64)
        .wrapping_add(second & LOW_HALF)
        .wrapping_add(third & LOW_HALF);
    Long {
        high: a1
            .wrapping_mul(b1)
            .wrapping_add(second.wrapping_shr(64))
            .wrapping_add(third.wrapping_shr(64))
            .wrapping_add(middle.wrapping_shr(64)),
        low: (first & LOW_HALF) | middle.wrapping_shl(64),
    }
}

impl Long {
    /// The product of two numbers.
    #[inline]
    pub fn product(a: i128, b: i128) -> Long {
        let size = product_of_sizes(a.unsigned_abs(), b.unsigned_abs());
        if (a < 0) == (b < 0) {
            size
        } else {
            size.negated()
        }
    }

    #[inline(always)]
    pub fn is_zero(self) -> bool {
        self.high | self.low == 0
    }

    #[inline(always)]
    pub fn is_negative(self) -> bool {
        self.high.cast_signed() < 0
    }

    #[inline(always)]
    fn negated(self) -> Long {
        Long {
            high: 0_u128
                .wrapping_sub(self.high)
                .wrapping_sub(u128::from(self.low != 0)),
            low: 0_u128.wrapping_sub(self.low),
        }
    }

    /// The number without its sign.
    #[inline(always)]
    pub fn size(self) -> Long {
        if self.is_negative() {
            self.negated()
        } else {
            self
        }
    }

    /// The difference.
    #[inline(always)]
    pub fn minus(self, other: Long) -> Long {
        Long {
            high: self
                .high
                .wrapping_sub(other.high)
                .wrapping_sub(u128::from(self.low < other.low)),
            low: self.low.wrapping_sub(other.low),
        }
    }

    /// The number, where it fits 128 bits and is not the least of them.
    #[inline(always)]
    pub fn narrow(self) -> Option<i128> {
        let number = self.low.cast_signed();
        let sign = if number < 0 { u128::MAX } else { 0 };
        if self.high == sign && number != i128::MIN {
            Some(number)
        } else {
            None
        }
    }

    #[inline(always)]
    fn is_below(self, other: Long) -> bool {
        self.high < other.high || (self.high == other.high && self.low < other.low)
    }

    #[inline(always)]
    fn trailing_zeros(self) -> u32 {
        if self.low == 0 {
            self.high.trailing_zeros().wrapping_add(128)
        } else {
            self.low.trailing_zeros()
        }
    }

    /// The number of bits of a size.
    #[inline(always)]
    fn bits(self) -> u32 {
        if self.high == 0 {
            128_u32.wrapping_sub(self.low.leading_zeros())
        } else {
            256_u32.wrapping_sub(self.high.leading_zeros())
        }
    }

    /// A size shifted to the right by less than 256 bits.
    #[inline(always)]
    fn shifted_right(self, by: u32) -> Long {
        if by == 0 {
            return self;
        }
        if by >= 128 {
            return Long {
                high: 0,
                low: self.high.wrapping_shr(by.wrapping_sub(128)),
            };
        }
        Long {
            high: self.high.wrapping_shr(by),
            low: self.low.wrapping_shr(by) | self.high.wrapping_shl(128_u32.wrapping_sub(by)),
        }
    }

    /// A size shifted to the left by less than 256 bits.
    #[inline(always)]
    fn shifted_left(self, by: u32) -> Long {
        if by == 0 {
            return self;
        }
        if by >= 128 {
            return Long {
                high: self.low.wrapping_shl(by.wrapping_sub(128)),
                low: 0,
            };
        }
        Long {
            high: self.high.wrapping_shl(by) | self.low.wrapping_shr(128_u32.wrapping_sub(by)),
            low: self.low.wrapping_shl(by),
        }
    }

    #[inline(always)]
    fn odd_part(self) -> Long {
        self.shifted_right(self.trailing_zeros())
    }
}

fn gcd_of_odd(a: Long, b: Long) -> Long {
    let mut x = a;
    let mut y = b;
    for _ in 0..512 {
        if x.high | y.high == 0 {
            return Long {
                high: 0,
                low: wide_gcd(x.low, y.low),
            };
        }
        let (low, rest) = if x.is_below(y) {
            (x, y.minus(x))
        } else {
            (y, x.minus(y))
        };
        if rest.is_zero() {
            return low;
        }
        x = rest.odd_part();
        y = low;
    }
    y
}

/// The greatest common divisor of the sizes of two numbers.
pub fn long_gcd(first: Long, second: Long) -> Long {
    let a = first.size();
    let b = second.size();
    if a.is_zero() {
        return b;
    }
    if b.is_zero() {
        return a;
    }
    let twos = a.trailing_zeros().min(b.trailing_zeros());
    gcd_of_odd(a.odd_part(), b.odd_part()).shifted_left(twos)
}

/// A divisor of numbers of 256 bits whose quotients fit 128 bits.
#[derive(Clone, Copy)]
pub struct LongDivisor {
    twos: u32,
    odd: Long,
    /// The inverse of the odd part modulo 2^128.
    inverse: u128,
    is_one: bool,
}

impl LongDivisor {
    /// That of a size above 0.
    pub fn of(size: Long) -> LongDivisor {
        let twos = size.trailing_zeros();
        let odd = size.shifted_right(twos);
        LongDivisor {
            twos,
            odd,
            inverse: wide_inverse_of_odd(odd.low),
            is_one: size.high == 0 && size.low == 1,
        }
    }

    /// Whether the odd part times the quotient is the size.
    #[inline(always)]
    fn gives(self, quotient: u128, size: Long) -> bool {
        let product = product_of_sizes(quotient, self.odd.low);
        if self.odd.high == 0 {
            return product.high == size.high && product.low == size.low;
        }
        let bits = 128_u32
            .wrapping_sub(quotient.leading_zeros())
            .wrapping_add(self.odd.bits());
        let high = product
            .high
            .wrapping_add(quotient.wrapping_mul(self.odd.high));
        bits <= 256 && high == size.high && product.low == size.low
    }

    /// The quotient. None where the divisor does not divide the number, or the quotient does not fit
    /// 128 bits.
    #[inline]
    pub fn quotient(self, number: Long) -> Option<i128> {
        if self.is_one {
            return number.narrow();
        }
        let size = number.size();
        if size.is_zero() {
            return Some(0);
        }
        if size.trailing_zeros() < self.twos {
            return None;
        }
        let shifted = size.shifted_right(self.twos);
        let quotient = i128::try_from(shifted.low.wrapping_mul(self.inverse)).ok()?;
        if !self.gives(quotient.unsigned_abs(), shifted) {
            return None;
        }
        if number.is_negative() {
            Some(quotient.wrapping_neg())
        } else {
            Some(quotient)
        }
    }
}
