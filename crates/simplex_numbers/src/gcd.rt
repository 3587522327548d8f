//! The greatest common divisor by differences and shifts. A turn takes at least one bit away, so
//! that as many turns as there are bits in both numbers are enough.

use lp_base::LARGEST_WORD;

/// The number without its factors of two.
#[inline(always)]
pub fn odd_part(n: u64) -> u64 {
    n.wrapping_shr(n.trailing_zeros())
}

/// The greatest common divisor.
#[inline]
pub fn gcd(a: u64, b: u64) -> u64 {
    if a == 0 {
        return b;
    }
    if b == 0 {
        return a;
    }
    let twos = (a | b).trailing_zeros();
    let mut x = odd_part(a);
    let mut y = odd_part(b);
    for _ in 0..128 {
        if x == y {
            break;
        }
        let low = x.min(y);
        x = odd_part(x.abs_diff(y));
        y = low;
    }
    y.wrapping_shl(twos)
}

/// The number without its factors of two.
#[inline(always)]
pub fn wide_odd_part(n: u128) -> u128 {
    n.wrapping_shr(n.trailing_zeros())
}

/// One remainder takes a wide number to the width of a narrow one above 0.
fn gcd_of_mixed(wide: u128, narrow: u64) -> u128 {
    let rest = wide.checked_rem(u128::from(narrow)).unwrap_or(0);
    u128::from(gcd(u64::try_from(rest).unwrap_or(0), narrow))
}

fn wide_gcd_of_odd(a: u128, b: u128) -> u128 {
    let mut x = a;
    let mut y = b;
    for _ in 0..256 {
        if x == y {
            break;
        }
        let low = x.min(y);
        let rest = wide_odd_part(x.max(y).wrapping_sub(low));
        if low <= LARGEST_WORD {
            return gcd_of_mixed(rest, low as u64);
        }
        x = rest;
        y = low;
    }
    y
}

/// The greatest common divisor.
pub fn wide_gcd(a: u128, b: u128) -> u128 {
    if a == 0 {
        return b;
    }
    if b == 0 {
        return a;
    }
    if b <= LARGEST_WORD {
        return gcd_of_mixed(a, b as u64);
    }
    if a <= LARGEST_WORD {
        return gcd_of_mixed(b, a as u64);
    }
    let twos = (a | b).trailing_zeros();
    wide_gcd_of_odd(wide_odd_part(a), wide_odd_part(b)).wrapping_shl(twos)
}
