//! Lists of words of form 2: a list that is named, and lines that are dropped.
ghost use Rattle.std.specs.Prelude.{◌≡◌, ◌<◌, IfOk, MatchOption, Some, None};
ghost use Rattle.lp_base.specs.declared.limits.TheConstants.{LARGEST_WORD};
ghost use Rattle.cert_text.specs.Steps.{Reads};
ghost use Rattle.cert2_text.specs.Reading2.{list_word, list_at, dropped_at, dropped_from};

use cert_text::CertWhy;
use cert_text::split::Split;
use cert_text::words::{Fault, parse_hint, parse_index};
use lp_base::{LARGEST_WORD, Sequence};
use std::alloc::Global;

/// What stands behind `@` in a word that begins with it.
fn list_word(word: &[u8]) -> Option<&[u8]>
    ensures { MatchOption result (list_word word.now ≡ None) (λ number. list_word word.now ≡ Some number.now) }
{
    match word {
        [b'@', number @ ..] => Some(number),
        _ => None,
    }
}

/// Takes the first of the words that are left where it names a list.
#[tactic(auto, using(crate::proofs::ListWords::no_words, crate::proofs::ListWords::no_list, crate::proofs::ListWords::list_refused, crate::proofs::ListWords::list_taken))]
pub fn parse_list(words: &mut Split) -> Result<Option<u64>, Fault>
    ensures { Reads (λ list. (list, words.new)) result (list_at words.old) }
{
    let Some(first) = words.first() else {
        return Ok(None);
    };
    let Some(number) = list_word(first) else {
        return Ok(None);
    };
    let list = parse_hint(number)?;
    words.next();
    Ok(Some(list))
}

/// The number of a line that is dropped, at least the least one.
#[tactic(auto, unfolding(crate::specs::Reading2::dropped_at))]
fn parse_dropped_line(word: &[u8], least: u64) -> Result<u64, CertWhy>
    ensures number { result ≡ dropped_at least word.now }
    ensures below { IfOk result (λ n. n < LARGEST_WORD) }
{
    let number = parse_index(word, LARGEST_WORD as u64)?;
    if number < least {
        return Err(CertWhy::BadLine);
    }
    Ok(number)
}

fn parse_each_dropped(alloc: Global, words: &mut Split) -> Result<Sequence<u64>, Fault>
    ensures { Reads (λ lines. lines) result (dropped_from 0 words.old) }
{
    let mut lines = Sequence::new(alloc);
    let mut least = 0;
    while let Some(word) = words.next() {
        let line = parse_dropped_line(word, least)?;
        least = line + 1;
        lines.push(line)?;
    }
    Ok(lines)
}

/// The numbers that are left on a line, ascending, in no more memory than they need.
pub fn parse_dropped(alloc: Global, words: &mut Split) -> Result<Sequence<u64>, Fault>
    ensures { Reads (λ lines. lines) result (dropped_from 0 words.old) }
{
    let lines = parse_each_dropped(alloc, words)?;
    Ok(lines.copy(alloc)?)
}
