//! Products and quotients of single numbers.
ghost use Rattle.std.specs.Prelude.{◌≡◌, ◌≤◌, ◌<◌, ℤ, ◌+◌, ◌-◌, ◌*◌, ◌^◌, ◌+ℤ◌, ◌*ℤ◌, ◌<ℤ◌, pos, unsigned_abs, IfSome, IfNone};
ghost use Prim.Native.Nat.{◌∣◌};
ghost use Rattle.lp_base.specs.Numbers.{IsNarrow, narrow_bound};

use lp_base::{LARGEST_NARROW, LARGEST_WORD, product};

/// The product of two narrow numbers, small enough for the sum of two.
#[inline(always)]
pub fn narrow_product(a: i64, b: i64) -> i128
    requires left { IsNarrow a }
    requires right { IsNarrow b }
    ensures value { result ≡ a *ℤ b }
    ensures small { unsigned_abs result ≤ 2 ^ 126 - 2 ^ 64 + 1 }
{
    product(a, b)
}

/// The sum of two products.
#[inline(always)]
pub fn mixed(p: i64, x: i64, a: i64, y: i64) -> i128
    requires p { IsNarrow p }
    requires x { IsNarrow x }
    requires a { IsNarrow a }
    requires y { IsNarrow y }
    ensures value { result ≡ (p *ℤ x) +ℤ (a *ℤ y) }
    ensures small { unsigned_abs result < 2 ^ 127 }
{
    narrow_product(p, x) + narrow_product(a, y)
}

/// An exact quotient, in 64 bits where both numbers fit.
#[inline(always)]
fn divided(size: u128, g: u128) -> u128
    requires divides { g ∣ size }
    requires positive { 0 < g }
    ensures { result * g ≡ size }
{
    if g == 1 {
        return size;
    }
    if size <= LARGEST_WORD && g <= LARGEST_WORD {
        return u128::from(size as u64 / g as u64);
    }
    size / g
}

/// The quotient by a divisor, where it is narrow.
#[inline(always)]
pub fn narrow(z: i128, g: i128) -> Option<i64>
    requires divides { unsigned_abs g ∣ unsigned_abs z }
    requires positive { pos 0 <ℤ g }
    ensures exact { IfSome result (λ n. n *ℤ g ≡ z) }
    ensures narrow { IfSome result (λ n. IsNarrow n) }
    ensures wide { IfNone result (narrow_bound * unsigned_abs g ≤ unsigned_abs z) }
{
    let quotient = divided(z.unsigned_abs(), g.unsigned_abs());
    if quotient > LARGEST_NARROW {
        return None;
    }
    let n = quotient as i64;
    Some(if z < 0 { -n } else { n })
}
