//! Numbers of a text.
ghost use Rattle.std.specs.Prelude.{◌≡◌, Some, None, IfOk, IfErr};
ghost use Rattle.decks.specs.Decks.{IsDeckNumber};
ghost use Rattle.decks.specs.Numbers.{value_of, text_fault, is_negative, upper_end, lower_end};

use decks::DeckWhy;
use lp_base::NO_BOUND_FROM;
use lp_nums::{Frac, NumberFault, read_decimal};

/// Parses the number that a text spells.
pub fn parse_number(text: &[u8]) -> Result<Frac, DeckWhy>
    ensures right { IfOk result (λ f. text_fault text.now ≡ None) }
    ensures value { IfOk result (λ f. f ≡ value_of text.now) }
    ensures small { IfOk result IsDeckNumber }
    ensures fault { IfErr result (λ w. text_fault text.now ≡ Some w) }
{
    match read_decimal(text) {
        Ok(value) => Ok(value),
        Err(NumberFault::NumberText) => Err(DeckWhy::NumberText),
        Err(NumberFault::NumberWide) => Err(DeckWhy::NumberWide),
    }
}

/// Whether there is an end below 0.
pub fn is_negative(end: Option<Frac>) -> bool
    ensures { result ≡ is_negative end }
{
    match end {
        None => false,
        Some(value) => value.num() < 0,
    }
}

/// The upper bound of a value: none from 10^20 on.
pub fn upper_end(value: Frac) -> Option<Frac>
    requires { IsDeckNumber value }
    ensures { result ≡ upper_end value }
{
    if NO_BOUND_FROM as i128 * value.den() <= value.num() {
        return None;
    }
    Some(value)
}

/// The lower bound of a value: none from -10^20 down.
pub fn lower_end(value: Frac) -> Option<Frac>
    requires { IsDeckNumber value }
    ensures { result ≡ lower_end value }
{
    if value.num() <= -(NO_BOUND_FROM as i128 * value.den()) {
        return None;
    }
    Some(value)
}
