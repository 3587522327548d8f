//! Single words, and lists of terms.
ghost use Rattle.std.specs.Prelude.{◌≡◌, IfOk, bytes_eq, codes};
ghost use Rattle.lp_base.specs.Numbers.{IsNarrow};
ghost use Rattle.cert_text.specs.Steps.{Reads};
ghost use Rattle.edit_text.specs.Reading.{narrow_at, relation_at, terms_at};

use crate::Relation;
use cert_text::CertWhy;
use cert_text::split::Split;
use cert_text::words::{Fault, parse_factor};
use lp_base::Sequence;
use std::alloc::Global;

fn is_zero(word: &[u8]) -> bool
    ensures { result ≡ bytes_eq word.now (codes "0") }
{
    word == b"0".as_slice()
}

/// A number of at most 2^63 - 1 in size.
pub fn parse_narrow(word: &[u8]) -> Result<i64, CertWhy>
    ensures value { result ≡ narrow_at word.now }
    ensures narrow { IfOk result (λ z. IsNarrow z) }
{
    if is_zero(word) {
        return Ok(0);
    }
    parse_factor(word)
}

/// The relation that a letter names.
#[tactic(auto, unfolding(crate::specs::Reading::relation_at))]
pub fn parse_relation(word: &[u8]) -> Result<Relation, CertWhy>
    ensures { result ≡ relation_at word.now }
{
    if word == b"G".as_slice() {
        return Ok(Relation::Ge);
    }
    if word == b"L".as_slice() {
        return Ok(Relation::Le);
    }
    if word == b"E".as_slice() {
        return Ok(Relation::Eq);
    }
    Err(CertWhy::BadLine)
}

/// The terms that are left on a line.
pub fn parse_terms(alloc: Global, words: &mut Split) -> Result<Sequence<(i64, i64)>, Fault>
    ensures { Reads (λ terms. terms) result (terms_at words.old) }
{
    let mut terms = Sequence::new(alloc);
    while let Some(word) = words.next() {
        let number = parse_narrow(word)?;
        let Some(word) = words.next() else {
            return Err(Fault::Of(CertWhy::BadLine));
        };
        let factor = parse_factor(word)?;
        terms.push((number, factor))?;
    }
    Ok(terms)
}
