//! The first words of a line, and its end.
ghost use Rattle.front_text.specs.Reading.{after, ended, first_in};
ghost use Rattle.front_text.specs.Calls.{Reads};

use crate::FrontWhy;
use crate::tokens::Fault;
use cert_text::split::Split;

/// Takes the first of the words that are left, which has to be this one.
#[tactic(auto, unfolding(crate::specs::Reading::after))]
pub fn parse_word(words: &mut Split, wanted: &[u8]) -> Result<(), Fault>
    ensures { Reads (λ _. words.new) result (after wanted.now words.old) }
{
    match words.next() {
        Some(word) if word == wanted => Ok(()),
        _ => Err(Fault::Of(FrontWhy::BadLine)),
    }
}

/// Takes the first of the words that are left.
#[tactic(auto, unfolding(crate::specs::Reading::first_in))]
pub fn parse_first<'a>(words: &mut Split<'a>) -> Result<&'a [u8], Fault>
    ensures { Reads (λ word. (word.now, words.new)) result (first_in words.old) }
{
    match words.next() {
        Some(word) => Ok(word),
        None => Err(Fault::Of(FrontWhy::BadLine)),
    }
}

/// No word is left.
#[tactic(auto, unfolding(crate::specs::Reading::ended))]
pub fn parse_line_end(words: &mut Split) -> Result<(), Fault>
    ensures { Reads (λ _. words.new) result (ended words.old) }
{
    match words.next() {
        Some(_) => Err(Fault::Of(FrontWhy::BadLine)),
        None => Ok(()),
    }
}
