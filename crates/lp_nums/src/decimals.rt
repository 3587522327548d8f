//! Reading a decimal number.

ghost use Rattle.std.specs.Prelude.{◌≡◌, ℕ, ◌+◌, ◌-◌, ◌*◌, ◌^◌, ◌<◌, ◌≤◌, ◌||◌, nat_lt, Some, None, IsTrue, IfOk, MatchResult, ℤ, pos, neg_ℤ, ◌+ℤ◌, ◌-ℤ◌, int_lt, unsigned_abs};
ghost use Rattle.std.specs.List.{list_all};
ghost use Rattle.std.specs.Char.{is_ascii_digit};
ghost use Rattle.std.specs.Str.Parse.{signed_digits_value, starts_with_minus, without_leading_sign};
ghost use Rattle.lp_nums.specs.Fractions.{IsReduced, SameValue};
ghost use Rattle.lp_nums.specs.Decimals.{is_decimal, exponent, scale, signed, times_power_of_ten, spelled, clamped};
ghost use Rattle.lp_nums.specs.NumberFaults.{number_fault};

use crate::form::{exponent_of, is_decimal, is_negative, mantissa_of, scale_of, without_sign};
use crate::fractions::Frac;
use crate::scan::{MOST_DIGITS, Significand, capped_value};
use thiserror::Error;

/// Why a text was not read as a number.
#[derive(Clone, Copy, Debug, PartialEq, Eq, Error)]
pub enum NumberFault {
    /// The text is no decimal number.
    #[error("not a decimal number")]
    NumberText,
    /// The number has more than 18 digits, or its digits reach past 10^36 or below 10^-18.
    #[error("a number with too many digits")]
    NumberWide,
}

/// The number behind an exponent mark, kept within 2^100 of 0.
fn written_exponent(text: &[u8]) -> i128
    requires { IsTrue (list_all is_ascii_digit (without_leading_sign text.now)) }
    ensures { result ≡ clamped (2 ^ 100) (signed_digits_value 10 text.now) }
{
    let size = capped_value(without_sign(text)) as i128;
    if is_negative(text) { -size } else { size }
}

/// The power of ten that a decimal text's last digit before `zeros` zeros counts, where its exponent
/// is within 2^100 of 0.
fn power_of(text: &[u8], zeros: u64) -> i128
    requires { IsTrue (is_decimal text.now) }
    ensures value { result ≡ (clamped (2 ^ 100) (signed_digits_value 10 (exponent text.now)) -ℤ pos (scale text.now)) +ℤ pos zeros }
    ensures short { scale text.now < 2 ^ 64 }
    ensures near { unsigned_abs result < 2 ^ 120 }
{
    let scale = scale_of(mantissa_of(text)) as i128;
    written_exponent(exponent_of(text)) - scale + i128::from(zeros)
}

/// Whether a number of `width` digits, of which the last counts 10^power, is too wide.
fn is_past_limits(width: u64, power: i128) -> bool
    requires { unsigned_abs power < 2 ^ 120 }
    ensures { result ≡ (nat_lt 18 width || int_lt power (neg_ℤ (pos 18)) || int_lt (pos 36) (pos width +ℤ power)) }
{
    width > MOST_DIGITS || power < -18 || i128::from(width) + power > 36
}

fn signed_value(text: &[u8], size: u64) -> i128
    ensures { result ≡ signed (starts_with_minus text.now) size }
{
    if is_negative(text) {
        -i128::from(size)
    } else {
        i128::from(size)
    }
}

fn ten_to(power: u32) -> i128
    requires { power ≤ 36 }
    ensures { result ≡ pos (10 ^ power) }
{
    10u128.pow(power) as i128
}

/// The value times 10^power.
fn scaled(value: i128, power: i128) -> Frac
    requires narrow { unsigned_abs power ≤ 36 }
    requires room { unsigned_abs value * 10 ^ unsigned_abs power < 2 ^ 127 }
    ensures value { SameValue result (times_power_of_ten value power) }
    ensures lowest { IsReduced result }
    ensures num_bound { unsigned_abs result.num ≤ unsigned_abs (times_power_of_ten value power).num }
    ensures den_bound { unsigned_abs result.den ≤ unsigned_abs (times_power_of_ten value power).den }
{
    let ten = ten_to(power.unsigned_abs() as u32);
    if power < 0 {
        Frac::reduced(value, ten)
    } else {
        Frac::whole(value * ten)
    }
}

/// The number that a text spells: an optional sign, digits with at most one point and at least one
/// digit, and optionally `E` or `e`, an optional sign and digits. It takes no memory.
///
/// Any other text is `NumberText`. A number is `NumberWide` where, without the zeros at the front
/// and at the back of its digits, it has more than 18 digits, or the last counts less than 10^-18,
/// or the first counts 10^36 or more. Zero is never too wide.
pub fn read_decimal(text: &[u8]) -> Result<Frac, NumberFault>
    ensures refused { MatchResult result (λ _. number_fault text.now ≡ None) (λ why. number_fault text.now ≡ Some why) }
    ensures value { IfOk result (λ f. SameValue f (spelled text.now)) }
    ensures lowest { IfOk result IsReduced }
    ensures small { IfOk result (λ f. (unsigned_abs f.num < 10 ^ 36) × (unsigned_abs f.den ≤ 10 ^ 18)) }
{
    if !is_decimal(text) {
        return Err(NumberFault::NumberText);
    }
    let digits = Significand::of_text(mantissa_of(text));
    if digits.width == 0 {
        return Ok(Frac::whole(0));
    }
    let power = power_of(text, digits.zeros);
    if is_past_limits(digits.width, power) {
        return Err(NumberFault::NumberWide);
    }
    Ok(scaled(signed_value(text, digits.value), power))
}
