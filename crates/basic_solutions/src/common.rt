//! Fractions over their least common denominator.
ghost use Rattle.std.specs.Prelude.{◌≡◌, ◌<◌, ◌≤◌, ◌*◌, ◌^◌, ◌*ℤ◌, ◌++◌, ◌∷◌, [], ℕ, pos, length, unsigned_abs, IfOk, IfSome, IfNone, OnOk};
ghost use Rattle.std.specs.Int.{IsGcd};
ghost use Prim.Native.Nat.{◌∣◌};
ghost use Rattle.lp_base.specs.Numbers.{IsNarrow, narrow_bound};
ghost use Rattle.basic_solutions.specs.Commons.{IsGreatestCommon, IsLcm, IsLeastCommon, IsTooLarge, IsWideAlong, IsWideOver};
ghost use Rattle.basic_solutions.specs.Readings.{AreAlong, AreNarrowFractions, AreNumbersUpto, AreOver, den_in, size_in, value_in};

use lp_base::LARGEST_NARROW;
use lp_nums::{Frac, gcd};
use std::alloc::{AllocError, Global};

/// Past this a common denominator is not kept: a direction over it has a number that is not narrow.
const MOST_DENOMINATOR: u128 = (1 << 126) - 1;

fn gcd_of(a: u128, b: u128) -> u128
    requires first { a < 2 ^ 127 }
    requires second { b < 2 ^ 127 }
    ensures { IsGcd a b result }
{
    gcd(a as i128, b as i128).unsigned_abs()
}

/// The least common multiple, where it is below 2^126.
fn lcm_of(a: u128, b: u128) -> Option<u128>
    requires first { 0 < a }
    requires second { 0 < b }
    requires small { a < 2 ^ 126 }
    requires narrow { b < narrow_bound }
    ensures lcm { IfSome result (λ m. IsLcm a b m) }
    ensures positive { IfSome result (λ m. 0 < m) }
    ensures small { IfSome result (λ m. m < 2 ^ 126) }
    ensures none { IfNone result ((m : ℕ) × IsLcm a b m × (2 ^ 126 ≤ m)) }
{
    let rest = b / gcd_of(a, b);
    if a > MOST_DENOMINATOR / rest {
        return None;
    }
    Some(a * rest)
}

#[inline(always)]
fn den_at(values: &[Frac], i: usize) -> u128
    requires { i < length values.now }
    ensures { result ≡ den_in values.now i }
{
    values[i].den().unsigned_abs()
}

#[inline(always)]
fn size_at(values: &[Frac], i: usize) -> u128
    requires { i < length values.now }
    ensures { result ≡ size_in values.now i }
{
    values[i].num().unsigned_abs()
}

/// The least common denominator of fractions, where it is below 2^126.
fn common_denominator(values: &[Frac]) -> Option<u128>
    requires { AreNarrowFractions values.now }
    ensures least { IfSome result (λ d. IsLeastCommon (length values.now) (den_in values.now) d) }
    ensures none { IfNone result (IsTooLarge (length values.now) (den_in values.now)) }
{
    let mut d = 1;
    for i in 0..values.len() {
        match lcm_of(d, den_at(values, i)) {
            Some(more) => d = more,
            None => return None,
        }
    }
    Some(d)
}

/// The greatest common divisor of the numerators of fractions.
fn common_numerator(values: &[Frac]) -> u128
    requires { AreNarrowFractions values.now }
    ensures { IsGreatestCommon (length values.now) (size_in values.now) result }
{
    let mut g = 0;
    for i in 0..values.len() {
        g = gcd_of(g, size_at(values, i));
    }
    g
}

/// A product, where it is narrow.
fn narrow_product(n: u128, m: u128) -> Option<i64>
    requires { n < narrow_bound }
    ensures value { IfSome result (λ x. x ≡ pos (n * m)) }
    ensures narrow { IfSome result (λ x. IsNarrow x) }
    ensures wide { IfNone result (narrow_bound ≤ n * m) }
{
    if n == 0 {
        return Some(0);
    }
    if m > LARGEST_NARROW || n * m > LARGEST_NARROW {
        return None;
    }
    Some((n * m) as i64)
}

/// The numerator over the denominator d, divided by g, where it is narrow.
fn number_over(value: Frac, g: u128, d: u128) -> Option<i64>
    requires narrow { IsNarrow value.num }
    requires some { 0 < g }
    requires divides { g ∣ unsigned_abs value.num }
    requires multiple { unsigned_abs value.den ∣ d }
    ensures value { IfSome result (λ x. (x *ℤ pos g) *ℤ value.den ≡ value.num *ℤ pos d) }
    ensures narrow { IfSome result (λ x. IsNarrow x) }
    ensures wide { IfNone result (narrow_bound * (g * unsigned_abs value.den) ≤ unsigned_abs value.num * d) }
{
    let size = narrow_product(
        value.num().unsigned_abs() / g,
        d / value.den().unsigned_abs(),
    )?;
    Some(if value.num() < 0 { -size } else { size })
}

#[inline(always)]
fn value_at(values: &[Frac], i: usize) -> Frac
    requires { i < length values.now }
    ensures { result ≡ value_in values.now i }
{
    values[i]
}

#[inline(always)]
fn put_number(numbers: &mut Vec<i64>, number: i64) -> Result<(), AllocError>
    requires { IsNarrow number }
    ensures { OnOk result (numbers.new.items ≡ numbers.old.items ++ number ∷ []) }
{
    numbers.push(number)?;
    Ok(())
}

/// The numerators over the denominator d, divided by g, where all are narrow.
fn numbers_over(
    alloc: Global,
    values: &[Frac],
    g: u128,
    d: u128,
) -> Result<Option<Vec<i64>>, AllocError>
    requires narrow { AreNarrowFractions values.now }
    requires some { 0 < g }
    requires divides { (c : ℕ) → c < length values.now → g ∣ size_in values.now c }
    requires multiple { (c : ℕ) → c < length values.now → den_in values.now c ∣ d }
    ensures numbers { IfOk result (λ found. IfSome found (λ xs. AreNumbersUpto values.now g d xs.items (length values.now))) }
    ensures wide { IfOk result (λ found. IfNone found ((c : ℕ) × (c < length values.now) × (narrow_bound * (g * den_in values.now c) ≤ size_in values.now c * d))) }
{
    let mut numbers: Vec<i64> = Vec::with_capacity(alloc, values.len())?;
    for i in 0..values.len() {
        match number_over(value_at(values, i), g, d) {
            Some(number) => put_number(&mut numbers, number)?,
            None => return Ok(None),
        }
    }
    Ok(Some(numbers))
}

/// Fractions over their least common denominator. None where each common denominator leads to a
/// number that is not narrow.
pub fn over_common_denominator(
    alloc: Global,
    values: &[Frac],
) -> Result<Option<(i64, Vec<i64>)>, AllocError>
    requires { AreNarrowFractions values.now }
    ensures some { IfOk result (λ found. IfSome found (λ made. AreOver values.now made.0 made.1.items)) }
    ensures none { IfOk result (λ found. IfNone found (IsWideOver (length values.now) (size_in values.now) (den_in values.now))) }
{
    let d = match common_denominator(values) {
        Some(d) => d,
        None => return Ok(None),
    };
    if d > LARGEST_NARROW {
        return Ok(None);
    }
    match numbers_over(alloc, values, 1, d)? {
        Some(numbers) => Ok(Some((d as i64, numbers))),
        None => Ok(None),
    }
}

/// The least whole numbers along fractions that are not all 0. None where all whole numbers along
/// them have one that is not narrow.
pub fn along_fractions(alloc: Global, values: &[Frac]) -> Result<Option<Vec<i64>>, AllocError>
    requires narrow { AreNarrowFractions values.now }
    requires goes { ((c : ℕ) → c < length values.now → size_in values.now c ≡ 0) → ⊥ }
    ensures some { IfOk result (λ found. IfSome found (λ made. AreAlong values.now made.items)) }
    ensures none { IfOk result (λ found. IfNone found (IsWideAlong (length values.now) (size_in values.now) (den_in values.now))) }
{
    match common_denominator(values) {
        Some(d) => numbers_over(alloc, values, common_numerator(values), d),
        None => Ok(None),
    }
}
