//! Numbers of 128 bits.

use crate::divisor::WideDivisor;
use crate::gcd::wide_gcd;
use crate::long::{Long, LongDivisor, long_gcd};
use crate::number::Number;

const LARGEST: u128 = i128::MAX as u128;

/// As many bits of a size as are used where about how large a quotient is will do.
const BITS_OF_ESTIMATE: u32 = 53;

#[inline(always)]
fn bits(size: u128) -> u32 {
    128_u32.wrapping_sub(size.leading_zeros())
}

/// Whether the sum of two products fits.
fn sum_fits(a: u128, b: u128, c: u128, d: u128) -> bool {
    match (a.checked_mul(b), c.checked_mul(d)) {
        (Some(first), Some(second)) => first.saturating_add(second) <= LARGEST,
        _ => false,
    }
}

impl Number for i128 {
    type Product = Long;

    type Divisor = WideDivisor;

    type ProductDivisor = LongDivisor;

    #[inline(always)]
    fn of(number: i64) -> i128 {
        i128::from(number)
    }

    #[inline(always)]
    fn largest() -> i128 {
        i128::MAX
    }

    #[inline(always)]
    fn of_wide(number: i128) -> Option<i128> {
        if number == i128::MIN {
            None
        } else {
            Some(number)
        }
    }

    #[inline(always)]
    fn narrow(self) -> Option<i64> {
        i64::of_wide(self)
    }

    #[inline(always)]
    fn widen(self) -> i128 {
        self
    }

    #[inline(always)]
    fn is_zero(self) -> bool {
        self == 0
    }

    #[inline(always)]
    fn is_one(self) -> bool {
        self == 1
    }

    #[inline(always)]
    fn is_negative(self) -> bool {
        self < 0
    }

    #[inline(always)]
    fn is_above(self, other: i128) -> bool {
        self > other
    }

    #[inline(always)]
    fn size(self) -> i128 {
        self.wrapping_abs()
    }

    #[inline(always)]
    fn negated(self) -> i128 {
        self.wrapping_neg()
    }

    #[inline(always)]
    fn join(self, other: i128) -> i128 {
        self | other
    }

    #[inline(always)]
    fn minus(self, other: i128) -> i128 {
        self.wrapping_sub(other)
    }

    #[inline(always)]
    fn times(self, other: i128) -> i128 {
        self.wrapping_mul(other)
    }

    #[inline(always)]
    fn saturating_times(self, other: i128) -> i128 {
        self.checked_mul(other).unwrap_or(i128::MAX)
    }

    #[inline(always)]
    fn without_bits(self, bits: u32) -> i128 {
        self.wrapping_shr(bits)
    }

    #[inline(always)]
    fn quotient(self, divisor: i128) -> i128 {
        self.checked_div(divisor).unwrap_or(0)
    }

    fn gcd(self, other: i128) -> i128 {
        wide_gcd(self.unsigned_abs(), other.unsigned_abs()).cast_signed()
    }

    fn thousandths(self, den: i128) -> u64 {
        let size = self.unsigned_abs();
        let den = den.unsigned_abs();
        let past = bits(size).max(bits(den)).saturating_sub(BITS_OF_ESTIMATE);
        size.wrapping_shr(past)
            .wrapping_mul(1000)
            .checked_div(den.wrapping_shr(past))
            .and_then(|quotient| u64::try_from(quotient).ok())
            .unwrap_or(u64::MAX)
    }

    fn divisor(self) -> WideDivisor {
        WideDivisor::of(self.unsigned_abs())
    }

    #[inline(always)]
    fn is_divided(self, divisor: WideDivisor) -> bool {
        divisor.divides(self.unsigned_abs())
    }

    #[inline(always)]
    fn divided(self, divisor: WideDivisor) -> i128 {
        divisor.quotient(self)
    }

    fn combination_fits(row: i128, own: i128, pivot: i128, other: i128) -> bool {
        let row = row.unsigned_abs();
        let own = own.unsigned_abs();
        let pivot = pivot.unsigned_abs();
        let other = other.unsigned_abs();
        if bits(row).saturating_add(bits(own)) < 127
            && bits(pivot).saturating_add(bits(other)) < 127
        {
            return true;
        }
        sum_fits(row, own, pivot, other)
    }

    #[inline(always)]
    fn product(self, other: i128) -> Long {
        Long::product(self, other)
    }

    #[inline(always)]
    fn difference(from: Long, product: Long) -> Long {
        from.minus(product)
    }

    #[inline(always)]
    fn is_zero_product(product: Long) -> bool {
        product.is_zero()
    }

    #[inline(always)]
    fn is_negative_product(product: Long) -> bool {
        product.is_negative()
    }

    #[inline(always)]
    fn of_product(product: Long) -> Option<i128> {
        product.narrow()
    }

    fn common_divisor(first: Long, second: Long) -> Long {
        long_gcd(first, second)
    }

    fn product_divisor(size: Long) -> LongDivisor {
        LongDivisor::of(size)
    }

    #[inline(always)]
    fn product_divided(product: Long, divisor: LongDivisor) -> Option<i128> {
        divisor.quotient(product)
    }
}
