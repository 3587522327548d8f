//! What an exchange of the form of a row with the form at a place makes of the rows.
ghost use Rattle.std.specs.Prelude.{◌≡◌, ◌≢◌, ◌<◌, ℕ, ℤ, ◌+◌, ◌^◌, ◌+ℤ◌, ◌*ℤ◌, ◌<ℤ◌, pos, nat_eq, not, if◌then◌else◌, unsigned_abs, IfOk, IfErr, OnOk};
ghost use Rattle.lp_base.specs.Numbers.{IsNarrow, narrow_bound};
ghost use Rattle.lpcc_case.specs.Points.{coefficient};
ghost use Rattle.dict.specs.Terms.{weigh, without, AreTerms};
ghost use Rattle.dict.specs.Equations.{IsRow, IsReduced};
ghost use Rattle.dict.specs.Exchanges.{Enters, Carries, IsNext, IsWideNext, turn, entered};

use crate::merge::combine;
use crate::numbers::{mixed, narrow_product};
use crate::reduce::{put_narrow, reduce};
use crate::row::{Row, number_in, term_at};
use std::alloc::{AllocError, Global};

#[inline(always)]
fn turned(z: i64, flip: bool) -> i64
    requires { IsNarrow z }
    ensures value { result ≡ turn flip z }
    ensures narrow { IsNarrow result }
{
    if flip { -z } else { z }
}

#[inline(always)]
fn entered_number(term: (u32, i64), e: u32, den: i64, flip: bool) -> i64
    requires den { IsNarrow den }
    requires term { IsNarrow term.1 }
    ensures { result ≡ if nat_eq term.0 e then turn (not flip) den else turn flip term.1 }
{
    if term.0 == e {
        turned(den, !flip)
    } else {
        turned(term.1, flip)
    }
}

fn entered_entries(
    alloc: Global,
    entries: &[(u32, i64)],
    e: u32,
    den: i64,
    flip: bool,
    places: u32,
) -> Result<Vec<(u32, i64)>, AllocError>
    requires den { IsNarrow den }
    requires terms { AreTerms narrow_bound 0 places entries.now }
    ensures { IfOk result (λ out. out.items ≡ entered flip e den entries.now) }
{
    let mut out: Vec<(u32, i64)> = Vec::with_capacity(alloc, entries.len())?;
    for i in 0..entries.len() {
        let term = term_at(entries, i);
        put_narrow(&mut out, term.0, entered_number(term, e, den, flip))?;
    }
    Ok(out)
}

/// The row of the form that enters at e, from the row of the form that leaves. It has the same
/// numbers in size, so it is never wide.
pub fn enter(alloc: Global, row: &Row, e: u32, places: u32) -> Result<Row, AllocError>
    requires row { IsRow narrow_bound places row.now }
    requires reduced { IsReduced row.now }
    requires entry { coefficient row.now.entries e ≢ pos 0 }
    ensures enters { IfOk result (λ made. Enters e row.now made) }
    ensures row { IfOk result (λ made. IsRow narrow_bound places made) }
    ensures reduced { IfOk result (λ made. IsReduced made) }
{
    let p = number_in(row.entries(), e, places);
    let flip = p > 0;
    let den = turned(p, !flip);
    let constant = turned(row.constant(), flip);
    let entries = entered_entries(alloc, row.entries(), e, row.denominator(), flip, places)?;
    Ok(Row::of(den, constant, entries))
}

#[inline(always)]
fn raw_denominator(row: &Row, entering: &Row, places: u32) -> i128
    requires row { IsRow narrow_bound places row.now }
    requires entering { IsRow narrow_bound places entering.now }
    ensures value { result ≡ entering.now.den *ℤ row.now.den }
    ensures positive { pos 0 <ℤ result }
    ensures small { unsigned_abs result < 2 ^ 127 }
{
    narrow_product(entering.denominator(), row.denominator())
}

#[inline(always)]
fn raw_constant(row: &Row, entering: &Row, a: i64, places: u32) -> i128
    requires row { IsRow narrow_bound places row.now }
    requires entering { IsRow narrow_bound places entering.now }
    requires narrow { IsNarrow a }
    ensures value { result ≡ (entering.now.den *ℤ row.now.constant) +ℤ (a *ℤ entering.now.constant) }
    ensures small { unsigned_abs result < 2 ^ 127 }
{
    mixed(
        entering.denominator(),
        row.constant(),
        a,
        entering.constant(),
    )
}

#[inline(always)]
fn raw_entries(
    out: &mut Vec<(u32, i128)>,
    row: &Row,
    entering: &Row,
    a: i64,
    e: u32,
    places: u32,
) -> Result<(), AllocError>
    requires row { IsRow narrow_bound places row.now }
    requires entering { IsRow narrow_bound places entering.now }
    requires narrow { IsNarrow a }
    ensures weighs { OnOk result ((v : ℕ → ℤ) → weigh out.new.items v ≡ (entering.now.den *ℤ weigh row.now.entries (without e v)) +ℤ (a *ℤ weigh entering.now.entries v)) }
    ensures terms { OnOk result (AreTerms (2 ^ 127) 0 places out.new.items) }
{
    combine(
        out,
        row.entries(),
        entering.entries(),
        entering.denominator(),
        a,
        e,
        places,
    )
}

/// Another row after the exchange, where a is its entry at e, or the place of a number that is
/// not narrow then. The list raw only lends its memory.
pub fn exchanged(
    raw: &mut Vec<(u32, i128)>,
    row: &Row,
    entering: &Row,
    a: i64,
    e: u32,
    places: u32,
) -> Result<Result<Row, u32>, AllocError>
    requires room { places < 2 ^ 31 }
    requires row { IsRow narrow_bound places row.now }
    requires entering { IsRow narrow_bound places entering.now }
    requires entry { a ≡ coefficient row.now.entries e }
    requires narrow { IsNarrow a }
    ensures next { IfOk result (λ made. IfOk made (λ fresh. IsNext places e row.now entering.now fresh)) }
    ensures wide { IfOk result (λ made. IfErr made (λ at. IsWideNext places e at row.now entering.now)) }
{
    let den = raw_denominator(row, entering, places);
    let constant = raw_constant(row, entering, a, places);
    raw_entries(raw, row, entering, a, e, places)?;
    reduce(*raw.allocator(), den, constant, raw, places)
}
