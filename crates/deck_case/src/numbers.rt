//! Fractions made whole.
ghost use Rattle.std.specs.Prelude.{◌≡◌, ◌^◌, ◌<◌, ◌≤◌, ◌++◌, ◌∷◌, [], List, All, IfSome, MatchOption, ℕ, unsigned_abs};
ghost use Rattle.std.specs.Option.{option_to_list};
ghost use Rattle.lp_nums.specs.Fractions.{Fraction, IsReduced};
ghost use Rattle.std.specs.Int.{IsGcd};
ghost use Rattle.decks.specs.Decks.{IsDeckNumber};
ghost use Rattle.deck_case.specs.CaseParts.{numbers_of};
ghost use Rattle.deck_case.specs.Multipliers.{ArePositive, multiplier, times};
ghost use Rattle.deck_case.specs.Steps.{IsClearedBy, IsLcm, IsNarrowMultiplier, far_end, narrow};

use decks::Entry;
use lp_base::LARGEST_OF_CASE;
use lp_nums::{Frac, gcd};

/// The denominator.
fn den_of(number: Frac) -> u64
    requires small { unsigned_abs number.den ≤ 10 ^ 18 }
    ensures value { result ≡ unsigned_abs number.den }
    ensures positive { 0 < result }
    ensures lowest { IsReduced number }
{
    number.den().unsigned_abs() as u64
}

fn common_divisor(a: u64, b: u64) -> u64
    requires { 0 < a }
    ensures { IsGcd a b result }
{
    gcd(i128::from(a), i128::from(b)).unsigned_abs() as u64
}

/// The least common multiple, where it is at most 2^52.
fn common(known: u64, den: u64) -> Option<u64>
    requires positive { 0 < known }
    requires narrow { known ≤ LARGEST_OF_CASE }
    requires den { den ≤ 10 ^ 18 }
    ensures { MatchOption result ((l : ℕ) → IsLcm known den l → LARGEST_OF_CASE < l)
        (λ l. IsLcm known den l × (l ≤ LARGEST_OF_CASE)) }
{
    let least = u128::from(known / common_divisor(known, den)) * u128::from(den);
    if least > LARGEST_OF_CASE {
        None
    } else {
        Some(least as u64)
    }
}

/// The multiplier of some fractions and one more, where `known` is that of the fractions.
fn with_number(known: u64, number: Frac) -> Option<u64>
    requires positive { 0 < known }
    requires narrow { known ≤ LARGEST_OF_CASE }
    requires den { unsigned_abs number.den ≤ 10 ^ 18 }
    ensures { (fs : List Fraction) → ArePositive fs → known ≡ multiplier fs
        → IsNarrowMultiplier (fs ++ number ∷ []) result }
{
    common(known, den_of(number))
}

/// The same with a range, if there is one.
fn with_range(known: u64, range: Option<Frac>) -> Option<u64>
    requires positive { 0 < known }
    requires narrow { known ≤ LARGEST_OF_CASE }
    requires den { IfSome range (λ r. unsigned_abs r.den ≤ 10 ^ 18) }
    ensures { (fs : List Fraction) → ArePositive fs → known ≡ multiplier fs
        → IsNarrowMultiplier (fs ++ option_to_list range) result }
{
    match range {
        None => Some(known),
        Some(range) => with_number(known, range),
    }
}

/// The least positive whole number that clears the denominators of a row's right-hand side, range
/// and entries, where it is at most 2^52.
pub fn multiplier(rhs: Frac, range: Option<Frac>, entries: &[Entry]) -> Option<u64>
    requires { All IsDeckNumber (numbers_of rhs range entries.now) }
    ensures { IsNarrowMultiplier (numbers_of rhs range entries.now) result }
{
    let known = with_number(1, rhs)?;
    let mut known = with_range(known, range)?;
    for entry in entries {
        known = with_number(known, entry.value)?;
    }
    Some(known)
}

/// The number, where it is at most 2^52 in size.
pub fn narrow(whole: i128) -> Option<i64>
    ensures { result ≡ narrow whole }
{
    if whole.unsigned_abs() > LARGEST_OF_CASE {
        None
    } else {
        Some(whole as i64)
    }
}

/// A number times a multiplier that clears it.
fn times(multiplier: u64, number: Frac) -> i128
    requires narrow { multiplier ≤ LARGEST_OF_CASE }
    requires clears { IsClearedBy multiplier number }
    requires room { unsigned_abs number.num ≤ 2 ^ 53 }
    ensures value { result ≡ times multiplier number }
    ensures room { unsigned_abs result ≤ 2 ^ 105 }
{
    number.num() * i128::from(multiplier / den_of(number))
}

/// A number times a multiplier that clears it, where that is at most 2^52 in size.
pub fn whole(multiplier: u64, number: Frac) -> Option<i64>
    requires positive { 0 < multiplier }
    requires narrow { multiplier ≤ LARGEST_OF_CASE }
    requires clears { IsClearedBy multiplier number }
    ensures { result ≡ narrow (times multiplier number) }
{
    if number.num().unsigned_abs() > LARGEST_OF_CASE {
        return None;
    }
    narrow(times(multiplier, number))
}

/// A number less, or else plus, the size of another.
fn moved(near: i64, span: i128, down: bool) -> i128
    requires near { unsigned_abs near ≤ LARGEST_OF_CASE }
    requires span { unsigned_abs span ≤ 2 ^ 105 }
    ensures { result ≡ far_end near down span }
{
    if down {
        i128::from(near) - span.abs()
    } else {
        i128::from(near) + span.abs()
    }
}

/// The end of a row that a range gives: `near` less, or else plus, the size of the range times the
/// multiplier, where that is at most 2^52 in size.
pub fn far_end(near: i64, multiplier: u64, range: Frac, down: bool) -> Option<i64>
    requires near { unsigned_abs near ≤ LARGEST_OF_CASE }
    requires positive { 0 < multiplier }
    requires narrow { multiplier ≤ LARGEST_OF_CASE }
    requires clears { IsClearedBy multiplier range }
    ensures { result ≡ narrow (far_end near down (times multiplier range)) }
{
    if range.num().unsigned_abs() > 2 * LARGEST_OF_CASE {
        return None;
    }
    narrow(moved(near, times(multiplier, range), down))
}
