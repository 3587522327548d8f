//! Lists of terms, and what is judged of them.
ghost use Rattle.std.specs.Prelude.{◌≡◌, IfOk, true};
ghost use Rattle.front_text.specs.Problems.{fits};
ghost use Rattle.front_text.specs.Reading.{fit_all, is_judged, judged, names_all, terms_from};
ghost use Rattle.front_text.specs.Calls.{Reads};

use crate::FrontWhy;
use crate::tokens::{Fault, parse_factor, parse_number};
use cert_text::split::Split;
use lp_base::{LARGEST_OF_CASE, Sequence};
use std::alloc::Global;

/// Variables, counted from 0, with their coefficients.
pub type Terms = Sequence<(u128, i128)>;

/// A number with terms.
pub type Bounded = (i128, Terms);

/// The terms that are left on a line, their variables ascending from the least one on.
pub fn parse_terms(alloc: Global, words: &mut Split, least: u64) -> Result<Terms, Fault>
    ensures { Reads (λ terms. terms) result (terms_from least words.old) }
{
    let mut terms = Sequence::new(alloc);
    let mut next = u128::from(least);
    while let Some(word) = words.next() {
        let number = parse_number(word, next)?;
        let Some(word) = words.next() else {
            return Err(Fault::Of(FrontWhy::BadLine));
        };
        let factor = parse_factor(word)?;
        next = number + 1;
        terms.push((number, factor))?;
    }
    Ok(terms)
}

/// Whether a number fits a case.
pub fn fits(number: i128) -> bool
    ensures { result ≡ fits number }
{
    number.unsigned_abs() <= LARGEST_OF_CASE
}

fn names_all(count: u64, terms: &[(u128, i128)]) -> bool
    ensures { result ≡ names_all count terms.now }
{
    terms.iter().all(|term| term.0 < u128::from(count))
}

fn fit_all(terms: &[(u128, i128)]) -> bool
    ensures { result ≡ fit_all terms.now }
{
    terms.iter().all(|term| fits(term.1))
}

/// A number and terms in the first `count` variables, judged.
#[tactic(auto, unfolding(crate::specs::Reading::judged))]
pub fn judged(count: u64, number: i128, terms: Terms) -> Result<Bounded, Fault>
    ensures found { Reads (λ found. found) result (judged count number terms) }
    ensures right { IfOk result (λ found. is_judged count found ≡ true) }
{
    if !names_all(count, terms.as_slice()) {
        return Err(Fault::Of(FrontWhy::NoSuch));
    }
    if !fits(number) || !fit_all(terms.as_slice()) {
        return Err(Fault::Of(FrontWhy::Wide));
    }
    Ok((number, terms))
}
