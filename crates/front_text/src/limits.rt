//! Whether the deck of a problem keeps the limits.
ghost use Rattle.std.specs.Prelude.{◌≡◌, ◌≤◌, ◌+◌, ◌^◌, min, count_by, length, nat_le};
ghost use Rattle.lp_base.specs.declared.limits.TheConstants.{MOST_COLUMNS as most_columns, MOST_CONSTRAINTS as most_constraints, MOST_ENTRIES as most_entries, MOST_PAIRS as most_pairs, MOST_ROWS as most_rows};
ghost use Rattle.front_text.specs.Problems.{are_few, bilevel_counts, lcp_counts, number_of_followers, number_of_terms};
ghost use Rattle.front_text.specs.Steps.{terms_in};

use crate::terms::Bounded;
use lp_base::{MOST_COLUMNS, MOST_CONSTRAINTS, MOST_ENTRIES, MOST_PAIRS, MOST_ROWS};

/// A count past this one is counted as this one. It is past every limit.
const COUNTED: u64 = 1_000_000;

fn counted(count: usize) -> u64
    ensures { result ≡ min 1000000 count }
{
    if count as u64 > COUNTED {
        return COUNTED;
    }
    count as u64
}

fn sum(a: u64, b: usize) -> u64
    requires { a ≤ 1000000 }
    ensures { result ≡ min 1000000 (a + b) }
{
    let sum = a + counted(b);
    if sum > COUNTED {
        return COUNTED;
    }
    sum
}

fn number_of_terms(lines: &[Bounded]) -> u64
    ensures { result ≡ min 1000000 (number_of_terms (terms_in lines.now)) }
{
    let mut number = 0;
    for line in lines {
        number = sum(number, line.1.len());
    }
    number
}

fn followers_in(nx: u64, terms: &[(u128, i128)]) -> usize
    ensures { result ≡ count_by (λ t. nat_le nx t.0) terms.now }
{
    let mut number = 0;
    for term in terms {
        if u128::from(nx) <= term.0 {
            number += 1;
        }
    }
    number
}

fn number_of_followers(nx: u64, lines: &[Bounded]) -> u64
    ensures { result ≡ min 1000000 (number_of_followers nx (terms_in lines.now)) }
{
    let mut number = 0;
    for line in lines {
        number = sum(number, followers_in(nx, line.1.as_slice()));
    }
    number
}

// Whether so many costs and the terms of these rows are no more entries than a deck may have.
fn has_few_entries(size: u64, rows: &[Bounded]) -> bool
    requires { size ≤ 2 ^ 52 }
    ensures { result ≡ nat_le (size + number_of_terms (terms_in rows.now)) most_entries }
{
    size + number_of_terms(rows) <= MOST_ENTRIES as u64
}

/// Whether the deck of a complementarity problem of this size with these rows keeps the limits.
pub fn lcp_is_small(size: u64, rows: &[Bounded]) -> bool
    requires { size ≤ 2 ^ 52 }
    ensures { result ≡ are_few (lcp_counts size (terms_in rows.now)) }
{
    size <= MOST_COLUMNS as u64
        && size <= MOST_ROWS as u64
        && has_few_entries(size, rows)
        && size <= MOST_PAIRS as u64
        && size + size <= MOST_CONSTRAINTS as u64
}

fn has_few_columns(nx: u64, ny: u64, low: usize) -> bool
    requires x { nx ≤ 2 ^ 52 }
    requires y { ny ≤ 2 ^ 52 }
    ensures { result ≡ nat_le (nx + ny + low) most_columns }
{
    nx + ny + counted(low) <= MOST_COLUMNS as u64
}

fn has_few_rows(ny: u64, up: usize, low: usize) -> bool
    requires { ny ≤ 2 ^ 52 }
    ensures { result ≡ nat_le (up + low + ny) most_rows }
{
    counted(up) + counted(low) + ny <= MOST_ROWS as u64
}

fn has_few_bilevel_entries(nx: u64, ny: u64, up: &[Bounded], low: &[Bounded]) -> bool
    requires x { nx ≤ 2 ^ 52 }
    requires y { ny ≤ 2 ^ 52 }
    ensures { result ≡ nat_le (nx + ny + length low.now + (number_of_terms (terms_in up.now)
        + (number_of_terms (terms_in low.now) + number_of_followers nx (terms_in low.now)))) most_entries }
{
    let columns = nx + ny + counted(low.len());
    let terms = number_of_terms(up) + (number_of_terms(low) + number_of_followers(nx, low));
    columns + terms <= MOST_ENTRIES as u64
}

fn has_few_constraints(ny: u64, up: usize, low: usize) -> bool
    requires { ny ≤ 2 ^ 52 }
    ensures { result ≡ nat_le (up + low + ny + low) most_constraints }
{
    counted(up) + counted(low) + ny + counted(low) <= MOST_CONSTRAINTS as u64
}

/// Whether the deck of a bilevel problem of these sizes with these lines keeps the limits.
pub fn bilevel_is_small(nx: u64, ny: u64, up: &[Bounded], low: &[Bounded]) -> bool
    requires x { nx ≤ 2 ^ 52 }
    requires y { ny ≤ 2 ^ 52 }
    ensures { result ≡ are_few (bilevel_counts nx ny (terms_in up.now) (terms_in low.now)) }
{
    has_few_columns(nx, ny, low.len())
        && has_few_rows(ny, up.len(), low.len())
        && has_few_bilevel_entries(nx, ny, up, low)
        && low.len() <= MOST_PAIRS
        && has_few_constraints(ny, up.len(), low.len())
}
