//! Words that are numbers.
ghost use Rattle.std.specs.Prelude.{◌≡◌, ◌≤◌, ◌<◌, MatchOption};
ghost use Rattle.std.specs.Char.{is_ascii_digit};
ghost use Rattle.std.specs.List.{list_all};
ghost use Rattle.words.specs.Numbers.{is_numeral, number_in, value_of};

/// The most that a number may be, 2^63 - 1.
pub const MOST: u64 = 9_223_372_036_854_775_807;

fn are_digits(word: &[u8]) -> bool
    ensures { result ≡ list_all is_ascii_digit word.now }
{
    word.iter().all(|byte| byte.is_ascii_digit())
}

fn is_numeral(word: &[u8]) -> bool
    ensures { result ≡ is_numeral word.now }
{
    1 <= word.len() && word.len() <= 19 && are_digits(word)
}

// The number that the digits write, or none where it is past the most.
fn value_of(digits: &[u8]) -> Option<u64>
    ensures { MatchOption result (MOST < value_of digits.now) (λ value. value ≡ value_of digits.now) }
{
    let mut value: u64 = 0;
    for digit in digits {
        if value > MOST / 10 {
            return None;
        }
        value = value * 10 + u64::from(digit.saturating_sub(b'0'));
    }
    Some(value)
}

/// The number of the word, where it is one from the least to the most.
pub fn number_in(least: u64, most: u64, word: &str) -> Option<u64>
    requires { most ≤ MOST }
    ensures { result ≡ number_in least most word.now }
{
    if !is_numeral(word.as_bytes()) {
        return None;
    }
    let value = value_of(word.as_bytes())?;
    if least <= value && value <= most {
        Some(value)
    } else {
        None
    }
}
