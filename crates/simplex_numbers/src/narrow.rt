//! Numbers of 64 bits.

use crate::divisor::{NarrowDivisor, WideDivisor};
use crate::gcd::{gcd, wide_gcd};
use crate::number::Number;
use lp_base::{LARGEST_NARROW, product};

/// A number of 128 bits, where it fits 64 bits and is not the least of them.
#[inline(always)]
fn narrow(number: i128) -> Option<i64> {
    if -0x7fff_ffff_ffff_ffff <= number && number <= 0x7fff_ffff_ffff_ffff {
        Some(number as i64)
    } else {
        None
    }
}

impl Number for i64 {
    type Product = i128;

    type Divisor = NarrowDivisor;

    type ProductDivisor = WideDivisor;

    #[inline(always)]
    fn of(number: i64) -> i64 {
        number
    }

    #[inline(always)]
    fn largest() -> i64 {
        i64::MAX
    }

    #[inline(always)]
    fn of_wide(number: i128) -> Option<i64> {
        narrow(number)
    }

    #[inline(always)]
    fn narrow(self) -> Option<i64> {
        Some(self)
    }

    #[inline(always)]
    fn widen(self) -> i128 {
        i128::from(self)
    }

    #[inline(always)]
    fn is_zero(self) -> bool {
        self == 0
    }

    #[inline(always)]
    fn is_one(self) -> bool {
        self == 1
    }

    #[inline(always)]
    fn is_negative(self) -> bool {
        self < 0
    }

    #[inline(always)]
    fn is_above(self, other: i64) -> bool {
        self > other
    }

    #[inline(always)]
    fn size(self) -> i64 {
        self.wrapping_abs()
    }

    #[inline(always)]
    fn negated(self) -> i64 {
        self.wrapping_neg()
    }

    #[inline(always)]
    fn join(self, other: i64) -> i64 {
        self | other
    }

    #[inline(always)]
    fn minus(self, other: i64) -> i64 {
        self.wrapping_sub(other)
    }

    #[inline(always)]
    fn times(self, other: i64) -> i64 {
        self.wrapping_mul(other)
    }

    #[inline(always)]
    fn saturating_times(self, other: i64) -> i64 {
        self.saturating_mul(other)
    }

    #[inline(always)]
    fn without_bits(self, bits: u32) -> i64 {
        self.wrapping_shr(bits)
    }

    #[inline(always)]
    fn quotient(self, divisor: i64) -> i64 {
        self.checked_div(divisor).unwrap_or(0)
    }

    #[inline(always)]
    fn gcd(self, other: i64) -> i64 {
        gcd(self.unsigned_abs(), other.unsigned_abs()).cast_signed()
    }

    #[inline(always)]
    fn thousandths(self, den: i64) -> u64 {
        let size = self.unsigned_abs();
        let den = den.unsigned_abs();
        if size < 1 << 53 {
            return size.wrapping_mul(1000).checked_div(den).unwrap_or(0);
        }
        let large = u128::from(size)
            .wrapping_mul(1000)
            .checked_div(u128::from(den))
            .unwrap_or(0);
        u64::try_from(large).unwrap_or(u64::MAX)
    }

    #[inline(always)]
    fn divisor(self) -> NarrowDivisor {
        NarrowDivisor::of(self.unsigned_abs())
    }

    #[inline(always)]
    fn is_divided(self, divisor: NarrowDivisor) -> bool {
        divisor.divides(self.unsigned_abs())
    }

    #[inline(always)]
    fn divided(self, divisor: NarrowDivisor) -> i64 {
        divisor.quotient(self)
    }

    #[inline(always)]
    fn combination_fits(row: i64, own: i64, pivot: i64, other: i64) -> bool {
        let first = u128::from(row.unsigned_abs()).wrapping_mul(u128::from(own.unsigned_abs()));
        let second = u128::from(pivot.unsigned_abs()).wrapping_mul(u128::from(
            other.unsigned_abs(),
        ));
        first.saturating_add(second) <= LARGEST_NARROW
    }

    #[inline(always)]
    fn product(self, other: i64) -> i128 {
        product(self, other)
    }

    #[inline(always)]
    fn difference(from: i128, product: i128) -> i128 {
        from.wrapping_sub(product)
    }

    #[inline(always)]
    fn is_zero_product(product: i128) -> bool {
        product == 0
    }

    #[inline(always)]
    fn is_negative_product(product: i128) -> bool {
        product < 0
    }

    #[inline(always)]
    fn of_product(product: i128) -> Option<i64> {
        narrow(product)
    }

    fn common_divisor(first: i128, second: i128) -> i128 {
        wide_gcd(first.unsigned_abs(), second.unsigned_abs()).cast_signed()
    }

    fn product_divisor(size: i128) -> WideDivisor {
        WideDivisor::of(size.unsigned_abs())
    }

    #[inline(always)]
    fn product_divided(product: i128, divisor: WideDivisor) -> Option<i64> {
        if !divisor.divides(product.unsigned_abs()) {
            return None;
        }
        narrow(divisor.quotient(product))
    }
}
