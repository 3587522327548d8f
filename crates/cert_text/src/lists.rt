//! Lists of words: choices, terms and hints.
ghost use Rattle.std.specs.Prelude.{◌≡◌, IfOk, IsTrue, bytes_eq};
ghost use Rattle.nogoods.specs.Choices.{pairs_ascend};
ghost use Rattle.cert_text.specs.Spelling.{colon};
ghost use Rattle.cert_text.specs.Reading.{after, first_at, ended, choices_from, last_choices_from, terms_from, hints_at};
ghost use Rattle.cert_text.specs.Steps.{Reads};

use crate::CertWhy;
use crate::split::Split;
use crate::words::{Fault, parse_choice, parse_factor, parse_hint, parse_number};
use lp_base::Sequence;
use nogoods::{Choice, NoGood};
use std::alloc::{AllocError, Global};

/// Takes the first of the words that are left, which has to be this one.
#[tactic(auto, unfolding(crate::specs::Reading::after))]
pub fn parse_word(words: &mut Split, wanted: &[u8]) -> Result<(), Fault>
    ensures { Reads (λ _. words.new) result (after wanted.now words.old) }
{
    match words.next() {
        Some(word) if word == wanted => Ok(()),
        _ => Err(Fault::Of(CertWhy::BadLine)),
    }
}

/// Takes the first of the words that are left.
#[tactic(auto, unfolding(crate::specs::Reading::first_at))]
pub fn parse_first<'a>(words: &mut Split<'a>) -> Result<&'a [u8], Fault>
    ensures { Reads (λ word. (word.now, words.new)) result (first_at words.old) }
{
    match words.next() {
        Some(word) => Ok(word),
        None => Err(Fault::Of(CertWhy::BadLine)),
    }
}

/// No word is left.
#[tactic(auto, unfolding(crate::specs::Reading::ended))]
pub fn parse_line_end(words: &mut Split) -> Result<(), Fault>
    ensures { Reads (λ _. words.new) result (ended words.old) }
{
    match words.next() {
        Some(_) => Err(Fault::Of(CertWhy::BadLine)),
        None => Ok(()),
    }
}

fn is_colon(word: &[u8]) -> bool
    ensures { result ≡ bytes_eq word.now colon }
{
    word == b":".as_slice()
}

fn parse_choices(alloc: Global, words: &mut Split) -> Result<Sequence<Choice>, Fault>
    ensures { Reads (λ choices. (choices, words.new)) result (choices_from 0 words.old) }
{
    let mut choices = Sequence::new(alloc);
    let mut least = 0;
    while let Some(word) = words.next() {
        if is_colon(word) {
            return Ok(choices);
        }
        let choice = parse_choice(word, least)?;
        least = choice.pair + 1;
        choices.push(choice)?;
    }
    Err(Fault::Of(CertWhy::BadLine))
}

// The no-good of choices that ascend.
fn no_good_from(alloc: Global, choices: &[Choice]) -> Result<NoGood, AllocError>
    requires { IsTrue (pairs_ascend choices.now) }
    ensures { IfOk result (λ ng. ng ≡ choices.now) }
{
    match NoGood::from_choices(alloc, choices)? {
        Some(ng) => Ok(ng),
        None => unreachable!(),
    }
}

/// The choices of a line, up to its first colon.
pub fn parse_no_good(alloc: Global, words: &mut Split) -> Result<NoGood, Fault>
    ensures { Reads (λ ng. (ng, words.new)) result (choices_from 0 words.old) }
{
    let choices = parse_choices(alloc, words)?;
    Ok(no_good_from(alloc, choices.as_slice())?)
}

fn parse_last_choices(alloc: Global, words: &mut Split) -> Result<Sequence<Choice>, Fault>
    ensures { Reads (λ choices. choices) result (last_choices_from 0 words.old) }
{
    let mut choices = Sequence::new(alloc);
    let mut least = 0;
    while let Some(word) = words.next() {
        let choice = parse_choice(word, least)?;
        least = choice.pair + 1;
        choices.push(choice)?;
    }
    Ok(choices)
}

/// The choices that are left on a line.
pub fn parse_last_no_good(alloc: Global, words: &mut Split) -> Result<NoGood, Fault>
    ensures { Reads (λ ng. ng) result (last_choices_from 0 words.old) }
{
    let choices = parse_last_choices(alloc, words)?;
    Ok(no_good_from(alloc, choices.as_slice())?)
}

fn parse_each_term(alloc: Global, words: &mut Split) -> Result<Sequence<(u32, i64)>, Fault>
    ensures { Reads (λ terms. terms) result (terms_from 0 words.old) }
{
    let mut terms = Sequence::new(alloc);
    let mut least = 0;
    while let Some(word) = words.next() {
        let number = parse_number(word, least)?;
        let Some(word) = words.next() else {
            return Err(Fault::Of(CertWhy::BadLine));
        };
        let factor = parse_factor(word)?;
        least = number + 1;
        terms.push((number, factor))?;
    }
    Ok(terms)
}

/// The terms that are left on a line, their numbers ascending, in no more memory than they need.
pub fn parse_terms(alloc: Global, words: &mut Split) -> Result<Sequence<(u32, i64)>, Fault>
    ensures { Reads (λ terms. terms) result (terms_from 0 words.old) }
{
    let terms = parse_each_term(alloc, words)?;
    Ok(terms.copy(alloc)?)
}

fn parse_each_hint(alloc: Global, words: &mut Split) -> Result<Sequence<u64>, Fault>
    ensures { Reads (λ hints. hints) result (hints_at words.old) }
{
    let mut hints = Sequence::new(alloc);
    while let Some(word) = words.next() {
        hints.push(parse_hint(word)?)?;
    }
    Ok(hints)
}

/// The hints that are left on a line, in no more memory than they need.
pub fn parse_hints(alloc: Global, words: &mut Split) -> Result<Sequence<u64>, Fault>
    ensures { Reads (λ hints. hints) result (hints_at words.old) }
{
    let hints = parse_each_hint(alloc, words)?;
    Ok(hints.copy(alloc)?)
}
