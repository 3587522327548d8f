//! Single words: numbers and choices.
ghost use Rattle.std.specs.Prelude.{◌≡◌, ◌<◌, ◌≤◌, ◌^◌, ◌-◌, IfOk, unsigned_abs};
ghost use Rattle.lp_base.specs.Numbers.{IsNarrow};
ghost use Rattle.cert_text.specs.declared.words.Fault.TheVariants.{Memory, Of};
ghost use Rattle.cert_text.specs.Reading.{below_zero, counted, index_at, positive, positive_at, factor, factor_at, cost_value, cost_value_at, count, count_at, side_at, chosen, choice_at, number_at, hint_at};
ghost use Rattle.cert_text.specs.Capped.{most, capped_digits_at, capped_natural_at, capped_whole_at, negative_at, nonnegative_at, with_digit};

use crate::CertWhy;
use lp_base::{LARGEST_NARROW, LARGEST_WORD, MOST_PAIRS};
use nogoods::{Choice, Side};
use std::alloc::AllocError;

/// Why words are not taken: memory is short, or the first reason against them.
#[derive(Debug, Drop)]
pub enum Fault {
    Memory(AllocError),
    Of(CertWhy),
}

impl From<AllocError> for Fault {
    ghost from_gives = { λ e f. f ≡ Memory e };

    fn from(error: AllocError) -> Fault {
        Fault::Memory(error)
    }
}

impl From<CertWhy> for Fault {
    ghost from_gives = { λ why f. f ≡ Of why };

    fn from(why: CertWhy) -> Fault {
        Fault::Of(why)
    }
}

/// A larger number is read as this one. It is past every limit of the text.
const MOST: u128 = 100_000_000_000_000_000_000_000_000_000_000_000_000;

fn with_digit(value: u128, byte: u8) -> Result<u128, CertWhy>
    requires { value ≤ most }
    ensures value { result ≡ with_digit value byte }
    ensures small { IfOk result (λ n. n ≤ most) }
{
    if !byte.is_ascii_digit() {
        return Err(CertWhy::BadLine);
    }
    if value >= MOST / 10 {
        return Ok(MOST);
    }
    Ok(value * 10 + u128::from(byte - b'0'))
}

fn parse_digits(word: &[u8]) -> Result<u128, CertWhy>
    ensures value { result ≡ capped_digits_at word.now }
    ensures small { IfOk result (λ n. n ≤ most) }
{
    let mut value: u128 = 0;
    for byte in word {
        value = with_digit(value, *byte)?;
    }
    Ok(value)
}

#[tactic(auto, unfolding(crate::specs::Reading::natural_at))]
fn parse_natural(word: &[u8]) -> Result<u128, CertWhy>
    ensures value { result ≡ capped_natural_at word.now }
    ensures small { IfOk result (λ n. n ≤ most) }
{
    match word {
        [] => Err(CertWhy::BadLine),
        [b'0', _, ..] => Err(CertWhy::BadLine),
        _ => parse_digits(word),
    }
}

fn below_zero(size: u128) -> Result<i128, CertWhy>
    requires { size ≤ most }
    ensures value { result ≡ below_zero size }
    ensures small { IfOk result (λ z. unsigned_abs z ≤ most) }
{
    if size == 0 {
        return Err(CertWhy::BadLine);
    }
    Ok(-(size as i128))
}

fn parse_negative(word: &[u8]) -> Result<i128, CertWhy>
    ensures value { result ≡ negative_at word.now }
    ensures small { IfOk result (λ z. unsigned_abs z ≤ most) }
{
    let size = parse_natural(word)?;
    below_zero(size)
}

fn parse_nonnegative(word: &[u8]) -> Result<i128, CertWhy>
    ensures value { result ≡ nonnegative_at word.now }
    ensures small { IfOk result (λ z. unsigned_abs z ≤ most) }
{
    let size = parse_natural(word)?;
    Ok(size as i128)
}

fn parse_whole(word: &[u8]) -> Result<i128, CertWhy>
    ensures value { result ≡ capped_whole_at word.now }
    ensures small { IfOk result (λ z. unsigned_abs z ≤ most) }
{
    let Some((first, digits)) = word.split_first() else {
        return Err(CertWhy::BadLine);
    };
    if *first == b'-' {
        return parse_negative(digits);
    }
    parse_nonnegative(word)
}

fn counted(greatest: u64, number: u128) -> Result<u64, CertWhy>
    ensures value { result ≡ counted greatest number }
    ensures below { IfOk result (λ n. n < greatest) }
{
    if number == 0 {
        return Err(CertWhy::BadLine);
    }
    if number > u128::from(greatest) {
        return Err(CertWhy::NumberWide);
    }
    Ok((number - 1) as u64)
}

/// A number from 1 to the greatest, counted from 0.
#[tactic(auto, using(crate::proofs::Caps::index_err, crate::proofs::Caps::index_ok))]
pub fn parse_index(word: &[u8], greatest: u64) -> Result<u64, CertWhy>
    ensures index { result ≡ index_at greatest word.now }
    ensures below { IfOk result (λ n. n < greatest) }
{
    let number = parse_natural(word)?;
    counted(greatest, number)
}

fn positive(number: u128) -> Result<i64, CertWhy>
    ensures { result ≡ positive number }
{
    if number == 0 {
        return Err(CertWhy::BadLine);
    }
    if number > LARGEST_NARROW {
        return Err(CertWhy::NumberWide);
    }
    Ok(number as i64)
}

/// A number from 1 to 2^63 - 1.
#[tactic(auto, using(crate::proofs::Caps::positive_err, crate::proofs::Caps::positive_ok))]
pub fn parse_positive(word: &[u8]) -> Result<i64, CertWhy>
    ensures { result ≡ positive_at word.now }
{
    let number = parse_natural(word)?;
    positive(number)
}

fn factor(number: i128) -> Result<i64, CertWhy>
    ensures value { result ≡ factor number }
    ensures narrow { IfOk result (λ z. IsNarrow z) }
{
    if number == 0 {
        return Err(CertWhy::BadLine);
    }
    if number.unsigned_abs() > LARGEST_NARROW {
        return Err(CertWhy::NumberWide);
    }
    Ok(number as i64)
}

/// A number that is not zero, of at most 2^63 - 1 in size.
#[tactic(auto, using(crate::proofs::Caps::factor_err, crate::proofs::Caps::factor_ok))]
pub fn parse_factor(word: &[u8]) -> Result<i64, CertWhy>
    ensures value { result ≡ factor_at word.now }
    ensures narrow { IfOk result (λ z. IsNarrow z) }
{
    let number = parse_whole(word)?;
    factor(number)
}

fn cost_value(number: i128) -> Result<i128, CertWhy>
    ensures { result ≡ cost_value number }
{
    if number.unsigned_abs() > 1 << 126 {
        return Err(CertWhy::NumberWide);
    }
    Ok(number)
}

/// A number of at most 2^126 in size.
#[tactic(auto, using(crate::proofs::Caps::cost_value_err, crate::proofs::Caps::cost_value_ok))]
pub fn parse_cost_value(word: &[u8]) -> Result<i128, CertWhy>
    ensures { result ≡ cost_value_at word.now }
{
    let number = parse_whole(word)?;
    cost_value(number)
}

fn count(lines: u64, number: i128) -> Result<u64, CertWhy>
    ensures { result ≡ count lines number }
{
    if number < 0 {
        return Err(CertWhy::BadCount);
    }
    if number >= 1 << 64 {
        return Err(CertWhy::NumberWide);
    }
    let count = number as u64;
    if count != lines {
        return Err(CertWhy::BadCount);
    }
    Ok(count)
}

/// The number of no-good lines, which is known.
#[tactic(auto, using(crate::proofs::Caps::count_err, crate::proofs::Caps::count_ok))]
pub fn parse_count(word: &[u8], lines: u64) -> Result<u64, CertWhy>
    ensures { result ≡ count_at lines word.now }
{
    let number = parse_whole(word)?;
    count(lines, number)
}

fn parse_side(letter: u8) -> Option<Side>
    ensures { result ≡ side_at letter }
{
    match letter {
        b'a' => Some(Side::A),
        b'b' => Some(Side::B),
        _ => None,
    }
}

fn chosen(least: u32, side: Option<Side>, pair: Result<u64, CertWhy>) -> Result<Choice, CertWhy>
    requires { IfOk pair (λ p. p < MOST_PAIRS) }
    ensures value { result ≡ chosen least side pair }
    ensures below { IfOk result (λ c. c.pair < MOST_PAIRS) }
{
    let (Some(side), Ok(pair)) = (side, pair) else {
        return Err(CertWhy::BadChoice);
    };
    let pair = pair as u32;
    if pair < least {
        return Err(CertWhy::BadChoice);
    }
    Ok(Choice { pair, side })
}

/// A choice: the pair's number, and the letter of its side. The pair is at least the least one.
#[tactic(auto, unfolding(crate::specs::Reading::choice_at))]
pub fn parse_choice(word: &[u8], least: u32) -> Result<Choice, CertWhy>
    ensures value { result ≡ choice_at least word.now }
    ensures below { IfOk result (λ c. c.pair < MOST_PAIRS) }
{
    let [first, ..] = word else {
        return Err(CertWhy::BadLine);
    };
    if !first.is_ascii_digit() {
        return Err(CertWhy::BadLine);
    }
    let Some((letter, number)) = word.split_last() else {
        return Err(CertWhy::BadLine);
    };
    chosen(
        least,
        parse_side(*letter),
        parse_index(number, MOST_PAIRS as u64),
    )
}

/// The number of a column or a constraint, at least the least one.
#[tactic(auto, unfolding(crate::specs::Reading::number_at))]
pub fn parse_number(word: &[u8], least: u32) -> Result<u32, CertWhy>
    ensures number { result ≡ number_at least word.now }
    ensures below { IfOk result (λ n. n < 2 ^ 32 - 1) }
{
    let number = parse_index(word, u64::from(u32::MAX))? as u32;
    if number < least {
        return Err(CertWhy::BadLine);
    }
    Ok(number)
}

/// The number of a no-good line, counted from 0.
#[tactic(auto, unfolding(crate::specs::Reading::hint_at))]
pub fn parse_hint(word: &[u8]) -> Result<u64, CertWhy>
    ensures { result ≡ hint_at word.now }
{
    parse_index(word, LARGEST_WORD as u64)
}
