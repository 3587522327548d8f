//! The forms of lines.
ghost use Rattle.std.specs.Prelude.{◌≡◌, ◌≤◌, ◌<◌, ◌+◌, ◌^◌, IfOk, codes, true};
ghost use Rattle.front_text.specs.Calls.{Finds, Reads};
ghost use Rattle.front_text.specs.Reading.{are_judged, both_sized, bounded_at, combination_at, fit_all, is_judged, names_all, row_at, row_number, size_at, sized, sizes_at};
ghost use Rattle.front_text.specs.Steps.{bounded_in, line_as, section_step};

use crate::lines::Lines;
use crate::terms::{Bounded, Terms, judged, parse_terms};
use crate::tokens::{Fault, parse_positive, parse_whole, parse_whole_from_zero};
use crate::words::{parse_first, parse_line_end, parse_word};
use crate::{FrontFault, FrontWhy};
use cert_text::split::Split;
use lp_base::{LARGEST_OF_CASE, Sequence};
use std::alloc::Global;

fn sized(n: u128) -> Result<u64, FrontWhy>
    ensures size { result ≡ sized n }
    ensures small { IfOk result (λ n. n ≤ 2 ^ 52) }
{
    if n > LARGEST_OF_CASE {
        return Err(FrontWhy::Wide);
    }
    Ok(n as u64)
}

fn both_sized(nx: u128, ny: u128) -> Result<(u64, u64), FrontWhy>
    ensures sizes { result ≡ both_sized nx ny }
    ensures x { IfOk result (λ n. n.0 ≤ 2 ^ 52) }
    ensures y { IfOk result (λ n. n.1 ≤ 2 ^ 52) }
{
    if nx > LARGEST_OF_CASE || ny > LARGEST_OF_CASE {
        return Err(FrontWhy::Wide);
    }
    Ok((nx as u64, ny as u64))
}

#[tactic(auto, unfolding(crate::specs::Reading::size_at))]
fn parse_size(words: &mut Split) -> Result<u64, Fault>
    ensures size { Reads (λ n. n) result (size_at words.old) }
    ensures small { IfOk result (λ n. n ≤ 2 ^ 52) }
{
    parse_word(words, b"size")?;
    let n = parse_positive(parse_first(words)?)?;
    parse_line_end(words)?;
    Ok(sized(n)?)
}

#[tactic(auto, unfolding(crate::specs::Reading::sizes_at))]
fn parse_sizes(words: &mut Split) -> Result<(u64, u64), Fault>
    ensures sizes { Reads (λ n. n) result (sizes_at words.old) }
    ensures x { IfOk result (λ n. n.0 ≤ 2 ^ 52) }
    ensures y { IfOk result (λ n. n.1 ≤ 2 ^ 52) }
{
    parse_word(words, b"sizes")?;
    let nx = parse_positive(parse_first(words)?)?;
    let ny = parse_positive(parse_first(words)?)?;
    parse_line_end(words)?;
    Ok(both_sized(nx, ny)?)
}

#[tactic(auto, unfolding(crate::specs::Reading::combination_at))]
fn parse_combination(
    alloc: Global,
    words: &mut Split,
    kind: &[u8],
    least: u64,
    count: u64,
) -> Result<Terms, Fault>
    ensures terms { Reads (λ ts. ts) result (combination_at kind.now least count words.old) }
    ensures right { IfOk result (λ ts. fit_all ts ≡ true) }
{
    parse_word(words, kind)?;
    parse_word(words, b":")?;
    let terms = parse_terms(alloc, words, least)?;
    Ok(judged(count, 0, terms)?.1)
}

#[tactic(auto, unfolding(crate::specs::Reading::bounded_at))]
fn parse_bounded(
    alloc: Global,
    words: &mut Split,
    kind: &[u8],
    count: u64,
) -> Result<Bounded, Fault>
    ensures found { Reads (λ x. x) result (bounded_at kind.now count words.old) }
    ensures right { IfOk result (λ x. is_judged count x ≡ true) }
{
    parse_word(words, kind)?;
    let number = parse_whole(parse_first(words)?)?;
    parse_word(words, b":")?;
    let terms = parse_terms(alloc, words, 0)?;
    judged(count, number, terms)
}

// The number of row k, counted from 0, of n rows.
fn row_number(n: u64, k: u64, number: u128) -> Result<u128, FrontWhy>
    ensures { result ≡ row_number n k number }
{
    if number != u128::from(k) + 1 || k >= n {
        return Err(FrontWhy::BadLine);
    }
    Ok(number)
}

#[tactic(auto, unfolding(crate::specs::Reading::row_at))]
fn parse_row(alloc: Global, words: &mut Split, n: u64, k: u64) -> Result<Bounded, Fault>
    ensures found { Reads (λ x. x) result (row_at n k words.old) }
    ensures right { IfOk result (λ x. is_judged n x ≡ true) }
{
    parse_word(words, b"row")?;
    let number = parse_whole_from_zero(parse_first(words)?)?;
    row_number(n, k, number)?;
    parse_word(words, b":")?;
    let terms = parse_terms(alloc, words, 0)?;
    judged(n, 0, terms)
}

/// The line of a size. The size is at least 1 and at most 2^52.
#[tactic(auto, unfolding(crate::specs::Steps::line_as))]
pub fn parse_size_line(lines: &mut Lines) -> Result<u64, FrontFault>
    ensures size { Finds (λ n. (n, lines.new)) result (line_as size_at lines.old) }
    ensures small { IfOk result (λ n. n ≤ 2 ^ 52) }
{
    let line = lines.whole()?;
    lines.judged(parse_size(&mut Split::of(line, b' ')))
}

/// The line of two sizes.
#[tactic(auto, unfolding(crate::specs::Steps::line_as))]
pub fn parse_sizes_line(lines: &mut Lines) -> Result<(u64, u64), FrontFault>
    ensures sizes { Finds (λ n. (n, lines.new)) result (line_as sizes_at lines.old) }
    ensures x { IfOk result (λ n. n.0 ≤ 2 ^ 52) }
    ensures y { IfOk result (λ n. n.1 ≤ 2 ^ 52) }
{
    let line = lines.whole()?;
    lines.judged(parse_sizes(&mut Split::of(line, b' ')))
}

/// A line of terms in variables from the least one on and below `count`.
#[tactic(auto, unfolding(crate::specs::Steps::line_as))]
pub fn parse_combination_line(
    alloc: Global,
    lines: &mut Lines,
    kind: &[u8],
    least: u64,
    count: u64,
) -> Result<Terms, FrontFault>
    ensures terms { Finds (λ ts. (ts, lines.new)) result (line_as (combination_at kind.now least count) lines.old) }
    ensures right { IfOk result (λ ts. fit_all ts ≡ true) }
{
    let line = lines.whole()?;
    lines.judged(parse_combination(alloc, &mut Split::of(line, b' '), kind, least, count))
}

#[tactic(auto, unfolding(crate::specs::Steps::line_as))]
fn parse_bounded_line(
    alloc: Global,
    lines: &mut Lines,
    kind: &[u8],
    count: u64,
) -> Result<Bounded, FrontFault>
    ensures found { Finds (λ x. (x, lines.new)) result (line_as (bounded_at kind.now count) lines.old) }
    ensures right { IfOk result (λ x. is_judged count x ≡ true) }
{
    let line = lines.whole()?;
    lines.judged(parse_bounded(alloc, &mut Split::of(line, b' '), kind, count))
}

#[tactic(auto, unfolding(crate::specs::Steps::line_as))]
fn parse_row_line(alloc: Global, lines: &mut Lines, n: u64, k: u64) -> Result<Bounded, FrontFault>
    ensures found { Finds (λ x. (x, lines.new)) result (line_as (row_at n k) lines.old) }
    ensures right { IfOk result (λ x. is_judged n x ≡ true) }
{
    let line = lines.whole()?;
    lines.judged(parse_row(alloc, &mut Split::of(line, b' '), n, k))
}

/// The next lines as far as they begin with this word, each a number with terms.
pub fn parse_bounded_lines(
    alloc: Global,
    lines: &mut Lines,
    kind: &[u8],
    count: u64,
) -> Result<Sequence<Bounded>, FrontFault>
    ensures found { Finds (λ xs. (xs, lines.new)) result (section_step kind.now (bounded_in kind.now count) 0 lines.old) }
    ensures right { IfOk result (λ xs. are_judged count xs ≡ true) }
{
    let mut found = Sequence::new(alloc);
    while lines.begin(kind) {
        found.push(parse_bounded_line(alloc, lines, kind, count)?)?;
    }
    Ok(found)
}

/// The next lines as far as they are rows.
pub fn parse_row_lines(
    alloc: Global,
    lines: &mut Lines,
    n: u64,
) -> Result<Sequence<Bounded>, FrontFault>
    ensures found { Finds (λ xs. (xs, lines.new)) result (section_step (codes "row") (row_at n) 0 lines.old) }
    ensures right { IfOk result (λ xs. are_judged n xs ≡ true) }
{
    let mut found = Sequence::new(alloc);
    while lines.begin(b"row") {
        found.push(parse_row_line(alloc, lines, n, found.len() as u64)?)?;
    }
    Ok(found)
}
