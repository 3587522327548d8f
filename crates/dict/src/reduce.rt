//! A row divided by the greatest common divisor of its numbers.
ghost use Rattle.std.specs.Prelude.{◌≡◌, ◌≤◌, ◌<◌, ◌*◌, ◌^◌, ◌++◌, ◌∷◌, [], ◌<ℤ◌, pos, length, unsigned_abs, IfOk, IfErr, OnOk, slice_index_or};
ghost use Rattle.std.specs.Int.{IsGcd};
ghost use Rattle.lp_base.specs.Numbers.{narrow_bound};
ghost use Rattle.lpcc_case.specs.Points.{coefficient};
ghost use Rattle.dict.specs.Terms.{AreTerms};
ghost use Rattle.dict.specs.Equations.{equation, DividesEach, IsCommon, IsReducedOf, IsRow, scale};
ghost use Rattle.dict.specs.Exchanges.{IsWideAt};

use crate::numbers::narrow;
use crate::row::Row;
use lp_nums::gcd;
use std::alloc::{AllocError, Global};

#[inline(always)]
fn wide_term_at(list: &[(u32, i128)], i: usize) -> (u32, i128)
    requires { i < length list.now }
    ensures { result ≡ slice_index_or list.now i (0, pos 0) }
{
    list[i]
}

/// The greatest common divisor of a divisor so far and one more number.
#[inline(always)]
fn gcd_with(g: i128, z: i128) -> i128
    requires positive { pos 0 <ℤ g }
    requires small { unsigned_abs g < 2 ^ 127 }
    requires number { unsigned_abs z < 2 ^ 127 }
    ensures divisor { IsGcd (unsigned_abs g) (unsigned_abs z) (unsigned_abs result) }
    ensures positive { pos 0 <ℤ result }
    ensures small { unsigned_abs result < 2 ^ 127 }
{
    if g == 1 { 1 } else { gcd(g, z) }
}

/// The greatest common divisor of a row's numbers.
fn common(den: i128, constant: i128, entries: &[(u32, i128)], places: u32) -> i128
    requires row { IsRow (2 ^ 127) places (equation den constant entries.now) }
    ensures common { IsCommon (unsigned_abs result) (equation den constant entries.now) }
    ensures positive { pos 0 <ℤ result }
    ensures small { unsigned_abs result < 2 ^ 127 }
{
    let mut g = gcd_with(den, constant);
    let mut i = 0;
    while i < entries.len() && g != 1 {
        g = gcd_with(g, wide_term_at(entries, i).1);
        i += 1;
    }
    g
}

#[inline(always)]
pub fn put_narrow(out: &mut Vec<(u32, i64)>, at: u32, value: i64) -> Result<(), AllocError>
    ensures { OnOk result (out.new.items ≡ out.old.items ++ (at, value) ∷ []) }
{
    out.push((at, value))?;
    Ok(())
}

/// The terms divided by g, or the place of one that is not narrow then.
fn divide_all(
    alloc: Global,
    entries: &[(u32, i128)],
    g: i128,
    places: u32,
) -> Result<Result<Vec<(u32, i64)>, u32>, AllocError>
    requires positive { pos 0 <ℤ g }
    requires divides { DividesEach (unsigned_abs g) entries.now }
    requires terms { AreTerms (2 ^ 127) 0 places entries.now }
    ensures exact { IfOk result (λ made. IfOk made (λ out. scale g out.items ≡ entries.now)) }
    ensures narrow { IfOk result (λ made. IfOk made (λ out. AreTerms narrow_bound 0 places out.items)) }
    ensures wide { IfOk result (λ made. IfErr made (λ at. narrow_bound * unsigned_abs g ≤ unsigned_abs (coefficient entries.now at))) }
    ensures within { IfOk result (λ made. IfErr made (λ at. at < places)) }
{
    let mut out: Vec<(u32, i64)> = Vec::with_capacity(alloc, entries.len())?;
    for i in 0..entries.len() {
        let term = wide_term_at(entries, i);
        match narrow(term.1, g) {
            Some(n) => put_narrow(&mut out, term.0, n)?,
            None => return Ok(Err(term.0)),
        }
    }
    Ok(Ok(out))
}

/// The row divided by its greatest common divisor, or the place of a number that is not narrow
/// then.
pub fn reduce(
    alloc: Global,
    den: i128,
    constant: i128,
    entries: &[(u32, i128)],
    places: u32,
) -> Result<Result<Row, u32>, AllocError>
    requires room { places < 2 ^ 31 }
    requires row { IsRow (2 ^ 127) places (equation den constant entries.now) }
    ensures reduced { IfOk result (λ made. IfOk made (λ row. IsReducedOf (equation den constant entries.now) row)) }
    ensures narrow { IfOk result (λ made. IfOk made (λ row. IsRow narrow_bound places row)) }
    ensures wide { IfOk result (λ made. IfErr made (λ at. IsWideAt places at (equation den constant entries.now))) }
{
    let g = common(den, constant, entries, places);
    let small_den = match narrow(den, g) {
        Some(n) => n,
        None => return Ok(Err(places + 1)),
    };
    let small_constant = match narrow(constant, g) {
        Some(n) => n,
        None => return Ok(Err(places)),
    };
    match divide_all(alloc, entries, g, places)? {
        Ok(small) => Ok(Ok(Row::of(small_den, small_constant, small))),
        Err(at) => Ok(Err(at)),
    }
}
