//! The greatest common divisor by differences and shifts, in 64 bits as soon as both numbers fit.

ghost use Rattle.std.specs.Prelude.{◌≡◌, ◌*◌, ◌%◌, ◌^◌, ◌<◌, pos, ◌≤ℤ◌, unsigned_abs};
ghost use Rattle.std.specs.Int.{IsGcd, w64, w128, trailing_zeros};

use lp_base::LARGEST_WORD;

/// The number without its factors of two.
#[inline(always)]
fn odd_part(n: u64) -> u64
    requires { 0 < n }
    ensures odd { result % 2 ≡ 1 }
    ensures value { n ≡ result * 2 ^ trailing_zeros w64 n }
{
    n >> n.trailing_zeros()
}

/// The number without its factors of two.
#[inline(always)]
fn wide_odd_part(n: u128) -> u128
    requires { 0 < n }
    ensures odd { result % 2 ≡ 1 }
    ensures value { n ≡ result * 2 ^ trailing_zeros w128 n }
{
    n >> n.trailing_zeros()
}

fn gcd_of_odd(a: u64, b: u64) -> u64
    requires first { a % 2 ≡ 1 }
    requires second { b % 2 ≡ 1 }
    ensures { IsGcd a b result }
{
    let mut x = a;
    let mut y = b;
    while x != y {
        let (low, rest) = if x < y { (x, y - x) } else { (y, x - y) };
        x = odd_part(rest);
        y = low;
    }
    x
}

fn gcd_of_wide_odd(a: u128, b: u128) -> u128
    requires first { a % 2 ≡ 1 }
    requires second { b % 2 ≡ 1 }
    ensures { IsGcd a b result }
{
    let mut x = a;
    let mut y = b;
    while x != y {
        if x <= LARGEST_WORD && y <= LARGEST_WORD {
            return gcd_of_odd(x as u64, y as u64) as u128;
        }
        let (low, rest) = if x < y { (x, y - x) } else { (y, x - y) };
        x = wide_odd_part(rest);
        y = low;
    }
    x
}

fn gcd_of_narrow(a: u64, b: u64) -> u64
    ensures { IsGcd a b result }
{
    if a == 0 {
        return b;
    }
    if b == 0 {
        return a;
    }
    let twos = a.trailing_zeros().min(b.trailing_zeros());
    gcd_of_odd(odd_part(a), odd_part(b)) << twos
}

fn gcd_of_wide(a: u128, b: u128) -> u128
    ensures { IsGcd a b result }
{
    if a == 0 {
        return b;
    }
    if b == 0 {
        return a;
    }
    let twos = a.trailing_zeros().min(b.trailing_zeros());
    gcd_of_wide_odd(wide_odd_part(a), wide_odd_part(b)) << twos
}

/// One remainder takes a wide number to the width of a narrow one.
fn gcd_of_mixed(wide: u128, narrow: u64) -> u128
    ensures { IsGcd wide narrow result }
{
    if narrow == 0 {
        return wide;
    }
    gcd_of_narrow(narrow, (wide % narrow as u128) as u64) as u128
}

fn gcd_of_sizes(a: u128, b: u128) -> u128
    ensures { IsGcd a b result }
{
    if a <= LARGEST_WORD {
        if b <= LARGEST_WORD {
            gcd_of_narrow(a as u64, b as u64) as u128
        } else {
            gcd_of_mixed(b, a as u64)
        }
    } else if b <= LARGEST_WORD {
        gcd_of_mixed(a, b as u64)
    } else {
        gcd_of_wide(a, b)
    }
}

/// The greatest common divisor. It is never negative, and 0 only of 0 and 0.
pub fn gcd(a: i128, b: i128) -> i128
    requires first { unsigned_abs a < 2 ^ 127 }
    requires second { unsigned_abs b < 2 ^ 127 }
    ensures divisor { IsGcd (unsigned_abs a) (unsigned_abs b) (unsigned_abs result) }
    ensures not_negative { pos 0 ≤ℤ result }
{
    gcd_of_sizes(a.unsigned_abs(), b.unsigned_abs()) as i128
}
