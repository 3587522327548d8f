//! Reading a linear complementarity problem.
ghost use Rattle.std.specs.Prelude.{◌≡◌, ◌<◌, ◌≤◌, ◌-◌, ◌^◌, [], IfOk, length, true};
ghost use Rattle.lp_base.specs.Answers.{Gives};
ghost use Rattle.front_text.specs.Calls.{Finds, Reads};
ghost use Rattle.front_text.specs.Problems.{are_few, lcp_counts};
ghost use Rattle.front_text.specs.Reading.{are_judged, end_at, fit_all, lcp_end_at};
ghost use Rattle.front_text.specs.Steps.{all_lines, lcp_at, lcp_of, line_as, terms_in};
ghost use Rattle.front_text.specs.Texts.{SpellsLcp, found_by};
ghost use Rattle.front_text.specs.declared.problem.Lcp.{Lcp as Problem};

use crate::limits::lcp_is_small;
use crate::lines::Lines;
use crate::making::{coefficients, rows_of};
use crate::rows::{parse_combination_line, parse_row_lines, parse_size_line};
use crate::terms::Bounded;
use crate::tokens::Fault;
use crate::words::{parse_line_end, parse_word};
use crate::{FrontFault, FrontWhy, Lcp};
use cert_text::split::Split;
use std::alloc::{AllocError, Global};

#[tactic(auto, unfolding(crate::specs::Reading::lcp_end_at, crate::specs::Reading::end_at))]
fn parse_end(words: &mut Split, n: u64, rows: &[Bounded]) -> Result<(), Fault>
    requires { n ≤ 2 ^ 52 }
    ensures end { Reads (λ _. []) result (lcp_end_at n (terms_in rows.now) words.old) }
    ensures few { IfOk result (λ _. are_few (lcp_counts n (terms_in rows.now)) ≡ true) }
{
    if rows.len() as u64 != n {
        return Err(Fault::Of(FrontWhy::BadLine));
    }
    parse_word(words, b"end")?;
    parse_line_end(words)?;
    if !lcp_is_small(n, rows) {
        return Err(Fault::Of(FrontWhy::TooMany));
    }
    Ok(())
}

#[tactic(auto, unfolding(crate::specs::Steps::line_as))]
fn parse_end_line(lines: &mut Lines, n: u64, rows: &[Bounded]) -> Result<(), FrontFault>
    requires { n ≤ 2 ^ 52 }
    ensures end { Finds (λ _. ([], lines.new)) result (line_as (lcp_end_at n (terms_in rows.now)) lines.old) }
    ensures few { IfOk result (λ _. are_few (lcp_counts n (terms_in rows.now)) ≡ true) }
{
    let line = lines.whole()?;
    lines.judged(parse_end(&mut Split::of(line, b' '), n, rows))
}

fn make(alloc: Global, n: u64, q: &[(u128, i128)], rows: &[Bounded]) -> Result<Lcp, AllocError>
    requires few { are_few (lcp_counts n (terms_in rows.now)) ≡ true }
    requires fitting { fit_all q.now ≡ true }
    requires right { are_judged n rows.now ≡ true }
    ensures { IfOk result (λ p. p ≡ lcp_of n q.now rows.now) }
{
    Ok(Lcp {
        size: n as u32,
        q: coefficients(alloc, 0, n, q)?,
        rows: rows_of(alloc, n, rows)?,
    })
}

#[tactic(auto, unfolding(crate::specs::Steps::lcp_at))]
fn parse(alloc: Global, lines: &mut Lines) -> Result<Lcp, FrontFault>
    ensures { Finds (λ p. p) result (lcp_at lines.old) }
{
    lines.head(b"lpcc-lcp 1")?;
    let n = parse_size_line(lines)?;
    let q = parse_combination_line(alloc, lines, b"q", 0, n)?;
    let rows = parse_row_lines(alloc, lines, n)?;
    parse_end_line(lines, n, rows.as_slice())?;
    lines.end()?;
    Ok(make(alloc, n, q.as_slice(), rows.as_slice())?)
}

/// The problem that a text spells, or the text's first fault. The time is linear in the text.
pub fn read_lcp(alloc: Global, text: &[u8]) -> Result<Lcp, FrontFault>
    requires { length text.now < 2 ^ 32 - 1 }
    // What is read is spelled so, and what is spelled so is read, unless memory is short.
    ensures spelled { IfOk result (λ p. SpellsLcp text.now p) }
    ensures only { (p : Problem) → SpellsLcp text.now p → Gives found_by p result }

    // The fault that is named is the text's first, and the first is named, unless memory is short.
    ensures found { Finds (λ p. p) result (lcp_at (all_lines text.now)) }
{
    parse(alloc, &mut Lines::of(text))
}
