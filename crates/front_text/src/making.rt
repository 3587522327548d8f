//! Problems of what was read: numbers in their widths, and a coefficient for each variable.
ghost use Rattle.std.specs.Prelude.{◌≡◌, ◌<◌, ◌≤◌, ◌+◌, ◌^◌, IfOk, map, true};
ghost use Rattle.std.specs.List.{range_with_len};
ghost use Rattle.front_text.specs.Problems.{coefficient_at, coefficients, fits};
ghost use Rattle.front_text.specs.Reading.{are_judged, fit_all, has_fitting, is_below, names_all};
ghost use Rattle.front_text.specs.Steps.{line_of, terms_in};

use crate::Line;
use crate::terms::Bounded;
use lp_base::Sequence;
use std::alloc::{AllocError, Global};

// A number that fits a case.
fn narrow(number: i128) -> i64
    requires { fits number ≡ true }
    ensures value { result ≡ number }
    ensures small { fits result ≡ true }
{
    number as i64
}

// The coefficient of a variable.
fn coefficient_at(terms: &[(u128, i128)], variable: u64) -> i64
    requires { fit_all terms.now ≡ true }
    ensures value { result ≡ coefficient_at terms.now variable }
    ensures small { fits result ≡ true }
{
    for term in terms {
        if term.0 == u128::from(variable) {
            return narrow(term.1);
        }
    }
    0
}

/// The coefficients of so many variables, from this one on.
pub fn coefficients(
    alloc: Global,
    first: u64,
    count: u64,
    terms: &[(u128, i128)],
) -> Result<Sequence<i64>, AllocError>
    requires right { fit_all terms.now ≡ true }
    requires small { first + count < 2 ^ 64 }
    ensures { IfOk result (λ made. made ≡ coefficients first count terms.now) }
{
    let mut made = Sequence::new(alloc);
    for i in 0..count {
        made.push(coefficient_at(terms, first + i))?;
    }
    Ok(made)
}

// A term in the widths that a problem has.
fn narrow_term(count: u64, term: (u128, i128)) -> (u32, i64)
    requires count { count ≤ 2 ^ 32 }
    requires below { is_below count term ≡ true }
    requires fitting { has_fitting term ≡ true }
    ensures { result ≡ term }
{
    (term.0 as u32, term.1 as i64)
}

fn narrow_terms(
    alloc: Global,
    count: u64,
    terms: &[(u128, i128)],
) -> Result<Sequence<(u32, i64)>, AllocError>
    requires count { count ≤ 2 ^ 32 }
    requires below { names_all count terms.now ≡ true }
    requires fitting { fit_all terms.now ≡ true }
    ensures { IfOk result (λ made. made ≡ terms.now) }
{
    let mut made = Sequence::new(alloc);
    for term in terms {
        made.push(narrow_term(count, *term))?;
    }
    Ok(made)
}

/// The terms of lines.
pub fn rows_of(
    alloc: Global,
    count: u64,
    lines: &[Bounded],
) -> Result<Sequence<Sequence<(u32, i64)>>, AllocError>
    requires count { count ≤ 2 ^ 32 }
    requires right { are_judged count lines.now ≡ true }
    ensures { IfOk result (λ made. made ≡ terms_in lines.now) }
{
    let mut made = Sequence::new(alloc);
    for line in lines {
        made.push(narrow_terms(alloc, count, line.1.as_slice())?)?;
    }
    Ok(made)
}

fn line_of(alloc: Global, count: u64, line: &Bounded) -> Result<Line, AllocError>
    requires count { count ≤ 2 ^ 32 }
    requires below { names_all count line.now.1 ≡ true }
    requires fitting { fit_all line.now.1 ≡ true }
    requires bound { fits line.now.0 ≡ true }
    ensures { IfOk result (λ made. made ≡ line_of line.now) }
{
    Ok(Line {
        rhs: narrow(line.0),
        terms: narrow_terms(alloc, count, line.1.as_slice())?,
    })
}

/// The lines of what was read.
pub fn lines_of(alloc: Global, count: u64, lines: &[Bounded]) -> Result<Sequence<Line>, AllocError>
    requires count { count ≤ 2 ^ 32 }
    requires right { are_judged count lines.now ≡ true }
    ensures { IfOk result (λ made. made ≡ map line_of lines.now) }
{
    let mut made = Sequence::new(alloc);
    for line in lines {
        made.push(line_of(alloc, count, line)?)?;
    }
    Ok(made)
}
