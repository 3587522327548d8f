//! Single words: numbers.
ghost use Rattle.std.specs.Prelude.{◌≡◌, ◌==◌, ◌&&◌, ◌<◌, ◌≤◌, ◌^◌, ◌+◌, IfOk, length, nat_lt, unsigned_abs};
ghost use Rattle.cert_text.specs.Reading.{below_zero};
ghost use Rattle.cert_text.specs.Capped.{most, capped_digits_at, capped_natural_at, capped_whole_at, negative_at, nonnegative_at, with_digit};
ghost use Rattle.front_text.specs.declared.tokens.Fault.TheVariants.{Memory, Of};
ghost use Rattle.front_text.specs.Reading.{factor_in, from_least, in_form, natural_in, nonzero, number_in, positive, positive_in, whole_in};

use crate::FrontWhy;
use cert_text::CertWhy;
use std::alloc::AllocError;

/// Why words are not taken: memory is short, or the first reason against them.
#[derive(Debug, Drop)]
pub enum Fault {
    Memory(AllocError),
    Of(FrontWhy),
}

impl From<AllocError> for Fault {
    ghost from_gives = { λ e f. f ≡ Memory e };

    fn from(error: AllocError) -> Fault {
        Fault::Memory(error)
    }
}

impl From<FrontWhy> for Fault {
    ghost from_gives = { λ why f. f ≡ Of why };

    fn from(why: FrontWhy) -> Fault {
        Fault::Of(why)
    }
}

/// A larger number is read as this one. It is past every limit of the text.
const MOST: u128 = 100_000_000_000_000_000_000_000_000_000_000_000_000;

fn with_digit(value: u128, byte: u8) -> Result<u128, CertWhy>
    requires { value ≤ most }
    ensures value { result ≡ with_digit value byte }
    ensures small { IfOk result (λ n. n ≤ most) }
{
    if !byte.is_ascii_digit() {
        return Err(CertWhy::BadLine);
    }
    if value >= MOST / 10 {
        return Ok(MOST);
    }
    Ok(value * 10 + u128::from(byte - b'0'))
}

fn parse_digits(word: &[u8]) -> Result<u128, CertWhy>
    ensures value { result ≡ capped_digits_at word.now }
    ensures small { IfOk result (λ n. n ≤ most) }
{
    let mut value: u128 = 0;
    for byte in word {
        value = with_digit(value, *byte)?;
    }
    Ok(value)
}

// A zero stands in front of other digits.
fn has_zero_front(first: u8, rest: &[u8]) -> bool
    ensures { result ≡ (first == 48 && nat_lt 0 (length rest.now)) }
{
    first == b'0' && !rest.is_empty()
}

fn parse_natural(word: &[u8]) -> Result<u128, CertWhy>
    ensures value { result ≡ capped_natural_at word.now }
    ensures small { IfOk result (λ n. n ≤ most) }
{
    let Some((first, rest)) = word.split_first() else {
        return Err(CertWhy::BadLine);
    };
    if has_zero_front(*first, rest) {
        return Err(CertWhy::BadLine);
    }
    parse_digits(word)
}

fn below_zero(size: u128) -> Result<i128, CertWhy>
    requires { size ≤ most }
    ensures value { result ≡ below_zero size }
    ensures small { IfOk result (λ z. unsigned_abs z ≤ most) }
{
    if size == 0 {
        return Err(CertWhy::BadLine);
    }
    Ok(-(size as i128))
}

fn parse_negative(word: &[u8]) -> Result<i128, CertWhy>
    ensures value { result ≡ negative_at word.now }
    ensures small { IfOk result (λ z. unsigned_abs z ≤ most) }
{
    let size = parse_natural(word)?;
    below_zero(size)
}

fn parse_nonnegative(word: &[u8]) -> Result<i128, CertWhy>
    ensures value { result ≡ nonnegative_at word.now }
    ensures small { IfOk result (λ z. unsigned_abs z ≤ most) }
{
    let size = parse_natural(word)?;
    Ok(size as i128)
}

fn parse_signed(word: &[u8]) -> Result<i128, CertWhy>
    ensures value { result ≡ capped_whole_at word.now }
    ensures small { IfOk result (λ z. unsigned_abs z ≤ most) }
{
    let Some((first, digits)) = word.split_first() else {
        return Err(CertWhy::BadLine);
    };
    if *first == b'-' {
        return parse_negative(digits);
    }
    parse_nonnegative(word)
}

fn in_form<T>(read: Result<T, CertWhy>) -> Result<T, FrontWhy>
    ensures { result ≡ in_form read }
{
    match read {
        Ok(value) => Ok(value),
        Err(_) => Err(FrontWhy::BadLine),
    }
}

/// A whole number of at least 0.
#[tactic(auto, unfolding(crate::specs::Reading::natural_in))]
pub fn parse_whole_from_zero(word: &[u8]) -> Result<u128, FrontWhy>
    ensures value { result ≡ natural_in word.now }
    ensures small { IfOk result (λ n. n ≤ most) }
{
    in_form(parse_natural(word))
}

/// A whole number.
#[tactic(auto, unfolding(crate::specs::Reading::whole_in))]
pub fn parse_whole(word: &[u8]) -> Result<i128, FrontWhy>
    ensures value { result ≡ whole_in word.now }
    ensures small { IfOk result (λ z. unsigned_abs z ≤ most) }
{
    in_form(parse_signed(word))
}

fn positive(number: u128) -> Result<u128, FrontWhy>
    ensures { result ≡ positive number }
{
    if number == 0 {
        return Err(FrontWhy::BadLine);
    }
    Ok(number)
}

/// A whole number of at least 1.
#[tactic(auto, unfolding(crate::specs::Reading::positive_in))]
pub fn parse_positive(word: &[u8]) -> Result<u128, FrontWhy>
    ensures { result ≡ positive_in word.now }
{
    let number = parse_whole_from_zero(word)?;
    positive(number)
}

fn from_least(least: u128, number: u128) -> Result<u128, FrontWhy>
    ensures value { result ≡ from_least least number }
    ensures below { IfOk result (λ n. n < number) }
{
    if number <= least {
        return Err(FrontWhy::BadLine);
    }
    Ok(number - 1)
}

/// A variable behind the first `least` ones, counted from 0.
#[tactic(auto, unfolding(crate::specs::Reading::number_in))]
pub fn parse_number(word: &[u8], least: u128) -> Result<u128, FrontWhy>
    ensures number { result ≡ number_in least word.now }
    ensures below { IfOk result (λ n. n < most) }
{
    let number = parse_whole_from_zero(word)?;
    from_least(least, number)
}

fn nonzero(number: i128) -> Result<i128, FrontWhy>
    requires { unsigned_abs number ≤ most }
    ensures value { result ≡ nonzero number }
    ensures small { IfOk result (λ z. unsigned_abs z ≤ most) }
{
    if number == 0 {
        return Err(FrontWhy::BadLine);
    }
    Ok(number)
}

/// A whole number that is not 0.
#[tactic(auto, unfolding(crate::specs::Reading::factor_in))]
pub fn parse_factor(word: &[u8]) -> Result<i128, FrontWhy>
    ensures value { result ≡ factor_in word.now }
    ensures small { IfOk result (λ z. unsigned_abs z ≤ most) }
{
    let number = parse_whole(word)?;
    nonzero(number)
}
