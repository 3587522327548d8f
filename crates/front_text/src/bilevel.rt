//! Reading a bilevel problem.
ghost use Rattle.std.specs.Prelude.{◌≡◌, ◌<◌, ◌≤◌, ◌+◌, ◌-◌, ◌^◌, [], IfOk, length, true};
ghost use Rattle.lp_base.specs.Answers.{Gives};
ghost use Rattle.front_text.specs.Calls.{Finds, Reads};
ghost use Rattle.front_text.specs.Problems.{are_few, bilevel_counts};
ghost use Rattle.front_text.specs.Reading.{are_judged, end_at, fit_all};
ghost use Rattle.front_text.specs.Steps.{all_lines, bilevel_at, bilevel_costs, bilevel_lines, bilevel_of, bilevel_rest, line_as, terms_in};
ghost use Rattle.front_text.specs.Texts.{SpellsBilevel, found_by};
ghost use Rattle.front_text.specs.declared.problem.Bilevel.{Bilevel as Problem};

use crate::limits::bilevel_is_small;
use crate::lines::Lines;
use crate::making::{coefficients, lines_of};
use crate::rows::{parse_bounded_lines, parse_combination_line, parse_sizes_line};
use crate::terms::Bounded;
use crate::tokens::Fault;
use crate::words::{parse_line_end, parse_word};
use crate::{Bilevel, FrontFault, FrontWhy};
use cert_text::split::Split;
use std::alloc::{AllocError, Global};

#[tactic(auto, unfolding(crate::specs::Reading::end_at))]
fn parse_end(
    words: &mut Split,
    nx: u64,
    ny: u64,
    up: &[Bounded],
    low: &[Bounded],
) -> Result<(), Fault>
    requires x { nx ≤ 2 ^ 52 }
    requires y { ny ≤ 2 ^ 52 }
    ensures end { Reads (λ _. []) result (end_at (bilevel_counts nx ny (terms_in up.now) (terms_in low.now)) words.old) }
    ensures few { IfOk result (λ _. are_few (bilevel_counts nx ny (terms_in up.now) (terms_in low.now)) ≡ true) }
{
    parse_word(words, b"end")?;
    parse_line_end(words)?;
    if !bilevel_is_small(nx, ny, up, low) {
        return Err(Fault::Of(FrontWhy::TooMany));
    }
    Ok(())
}

#[tactic(auto, unfolding(crate::specs::Steps::line_as))]
fn parse_end_line(
    lines: &mut Lines,
    nx: u64,
    ny: u64,
    up: &[Bounded],
    low: &[Bounded],
) -> Result<(), FrontFault>
    requires x { nx ≤ 2 ^ 52 }
    requires y { ny ≤ 2 ^ 52 }
    ensures end { Finds (λ _. ([], lines.new)) result (line_as (end_at (bilevel_counts nx ny (terms_in up.now) (terms_in low.now))) lines.old) }
    ensures few { IfOk result (λ _. are_few (bilevel_counts nx ny (terms_in up.now) (terms_in low.now)) ≡ true) }
{
    let line = lines.whole()?;
    lines.judged(parse_end(&mut Split::of(line, b' '), nx, ny, up, low))
}

fn make(
    alloc: Global,
    nx: u64,
    ny: u64,
    cost: &[(u128, i128)],
    follow: &[(u128, i128)],
    up: &[Bounded],
    low: &[Bounded],
) -> Result<Bilevel, AllocError>
    requires few { are_few (bilevel_counts nx ny (terms_in up.now) (terms_in low.now)) ≡ true }
    requires costs { fit_all cost.now ≡ true }
    requires followed { fit_all follow.now ≡ true }
    requires up { are_judged (nx + ny) up.now ≡ true }
    requires low { are_judged (nx + ny) low.now ≡ true }
    ensures { IfOk result (λ p. p ≡ bilevel_of nx ny cost.now follow.now up.now low.now) }
{
    Ok(Bilevel {
        nx: nx as u32,
        ny: ny as u32,
        cost: coefficients(alloc, 0, nx + ny, cost)?,
        follow: coefficients(alloc, nx, ny, follow)?,
        up: lines_of(alloc, nx + ny, up)?,
        low: lines_of(alloc, nx + ny, low)?,
    })
}

#[tactic(auto, unfolding(crate::specs::Steps::bilevel_rest))]
fn parse_rest(
    alloc: Global,
    lines: &mut Lines,
    sizes: (u64, u64),
    cost: &[(u128, i128)],
    follow: &[(u128, i128)],
    up: &[Bounded],
    low: &[Bounded],
) -> Result<Bilevel, FrontFault>
    requires x { sizes.0 ≤ 2 ^ 52 }
    requires y { sizes.1 ≤ 2 ^ 52 }
    requires costs { fit_all cost.now ≡ true }
    requires followed { fit_all follow.now ≡ true }
    requires up { are_judged (sizes.0 + sizes.1) up.now ≡ true }
    requires low { are_judged (sizes.0 + sizes.1) low.now ≡ true }
    ensures { Finds (λ p. p) result (bilevel_rest sizes cost.now follow.now up.now low.now lines.old) }
{
    let (nx, ny) = sizes;
    parse_end_line(lines, nx, ny, up, low)?;
    lines.end()?;
    Ok(make(alloc, nx, ny, cost, follow, up, low)?)
}

#[tactic(auto, unfolding(crate::specs::Steps::bilevel_lines))]
fn parse_lines(
    alloc: Global,
    lines: &mut Lines,
    sizes: (u64, u64),
    cost: &[(u128, i128)],
    follow: &[(u128, i128)],
) -> Result<Bilevel, FrontFault>
    requires x { sizes.0 ≤ 2 ^ 52 }
    requires y { sizes.1 ≤ 2 ^ 52 }
    requires costs { fit_all cost.now ≡ true }
    requires followed { fit_all follow.now ≡ true }
    ensures { Finds (λ p. p) result (bilevel_lines sizes cost.now follow.now lines.old) }
{
    let up = parse_bounded_lines(alloc, lines, b"up", sizes.0 + sizes.1)?;
    let low = parse_bounded_lines(alloc, lines, b"low", sizes.0 + sizes.1)?;
    parse_rest(
        alloc,
        lines,
        sizes,
        cost,
        follow,
        up.as_slice(),
        low.as_slice(),
    )
}

#[tactic(auto, unfolding(crate::specs::Steps::bilevel_costs))]
fn parse_costs(alloc: Global, lines: &mut Lines, sizes: (u64, u64)) -> Result<Bilevel, FrontFault>
    requires x { sizes.0 ≤ 2 ^ 52 }
    requires y { sizes.1 ≤ 2 ^ 52 }
    ensures { Finds (λ p. p) result (bilevel_costs sizes lines.old) }
{
    let count = sizes.0 + sizes.1;
    let cost = parse_combination_line(alloc, lines, b"cost", 0, count)?;
    let follow = parse_combination_line(alloc, lines, b"follow", sizes.0, count)?;
    parse_lines(alloc, lines, sizes, cost.as_slice(), follow.as_slice())
}

#[tactic(auto, unfolding(crate::specs::Steps::bilevel_at))]
fn parse(alloc: Global, lines: &mut Lines) -> Result<Bilevel, FrontFault>
    ensures { Finds (λ p. p) result (bilevel_at lines.old) }
{
    lines.head(b"lpcc-bilevel 1")?;
    let sizes = parse_sizes_line(lines)?;
    parse_costs(alloc, lines, sizes)
}

/// The problem that a text spells, or the text's first fault. The time is linear in the text.
pub fn read_bilevel(alloc: Global, text: &[u8]) -> Result<Bilevel, FrontFault>
    requires { length text.now < 2 ^ 32 - 1 }
    // What is read is spelled so, and what is spelled so is read, unless memory is short.
    ensures spelled { IfOk result (λ p. SpellsBilevel text.now p) }
    ensures only { (p : Problem) → SpellsBilevel text.now p → Gives found_by p result }

    // The fault that is named is the text's first, and the first is named, unless memory is short.
    ensures found { Finds (λ p. p) result (bilevel_at (all_lines text.now)) }
{
    parse(alloc, &mut Lines::of(text))
}
