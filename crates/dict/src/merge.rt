//! The sum of two sparse rows, each times a number.
ghost use Rattle.std.specs.Prelude.{◌≡◌, ◌<◌, ℕ, ℤ, ◌+◌, ◌^◌, ◌+ℤ◌, ◌*ℤ◌, OnOk, unsigned_abs};
ghost use Rattle.lp_base.specs.Numbers.{IsNarrow, narrow_bound};
ghost use Rattle.dict.specs.Terms.{weigh, without, AreTerms};

use crate::numbers::mixed;
use crate::row::term_at;
use std::alloc::AllocError;

/// Adds a term behind all others, where it is not zero.
#[inline(always)]
fn put(out: &mut Vec<(u32, i128)>, at: u32, value: i128) -> Result<(), AllocError>
    ensures weighs { OnOk result ((v : ℕ → ℤ) → weigh out.new.items v ≡ weigh out.old.items v +ℤ (value *ℤ v at)) }
    ensures terms { OnOk result ((bound low : ℕ) → unsigned_abs value < bound → AreTerms bound low at out.old.items → AreTerms bound low (at + 1) out.new.items) }
{
    if value != 0 {
        out.push((at, value))?;
    }
    Ok(())
}

/// Adds the term p * x + a * y.
#[inline(always)]
fn join(
    out: &mut Vec<(u32, i128)>,
    at: u32,
    p: i64,
    x: i64,
    a: i64,
    y: i64,
) -> Result<(), AllocError>
    requires p { IsNarrow p }
    requires x { IsNarrow x }
    requires a { IsNarrow a }
    requires y { IsNarrow y }
    ensures weighs { OnOk result ((v : ℕ → ℤ) → weigh out.new.items v ≡ weigh out.old.items v +ℤ (((p *ℤ x) +ℤ (a *ℤ y)) *ℤ v at)) }
    ensures terms { OnOk result (AreTerms (2 ^ 127) 0 at out.old.items → AreTerms (2 ^ 127) 0 (at + 1) out.new.items) }
{
    put(out, at, mixed(p, x, a, y))
}

/// The number of a term, or 0 at the place that leaves.
#[inline(always)]
fn kept(term: (u32, i64), e: u32) -> i64
    requires { IsNarrow term.1 }
    ensures worth { (v : ℕ → ℤ) → result *ℤ v term.0 ≡ term.1 *ℤ without e v term.0 }
    ensures narrow { IsNarrow result }
{
    if term.0 == e { 0 } else { term.1 }
}

/// Makes out the list of p times the terms of xs, without that at e, and a times those of ys.
pub fn combine(
    out: &mut Vec<(u32, i128)>,
    xs: &[(u32, i64)],
    ys: &[(u32, i64)],
    p: i64,
    a: i64,
    e: u32,
    places: u32,
) -> Result<(), AllocError>
    requires p { IsNarrow p }
    requires a { IsNarrow a }
    requires left { AreTerms narrow_bound 0 places xs.now }
    requires right { AreTerms narrow_bound 0 places ys.now }
    ensures weighs { OnOk result ((v : ℕ → ℤ) → weigh out.new.items v ≡ (p *ℤ weigh xs.now (without e v)) +ℤ (a *ℤ weigh ys.now v)) }
    ensures terms { OnOk result (AreTerms (2 ^ 127) 0 places out.new.items) }
{
    out.clear();
    let mut i = 0;
    let mut j = 0;
    'both: while i < xs.len() && j < ys.len() {
        let x = term_at(xs, i);
        let y = term_at(ys, j);
        if x.0 < y.0 {
            join(out, x.0, p, kept(x, e), a, 0)?;
            i += 1;
        } else if y.0 < x.0 {
            join(out, y.0, p, 0, a, y.1)?;
            j += 1;
        } else {
            join(out, x.0, p, kept(x, e), a, y.1)?;
            i += 1;
            j += 1;
        }
    }
    'left: while i < xs.len() {
        let x = term_at(xs, i);
        join(out, x.0, p, kept(x, e), a, 0)?;
        i += 1;
    }
    'right: while j < ys.len() {
        let y = term_at(ys, j);
        join(out, y.0, p, 0, a, y.1)?;
        j += 1;
    }
    Ok(())
}
