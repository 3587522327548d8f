//! The rows of a dictionary after a pivot: all of them are made before the first is written.
ghost use Rattle.std.specs.Prelude.{◌≡◌, ◌≢◌, ◌<◌, ℕ, ◌^◌, List, length, IfOk, IfErr, OnOk, OnErr, pos};
ghost use Rattle.std.specs.List.{AllByRecursion};
ghost use Rattle.lp_base.specs.Numbers.{narrow_bound};
ghost use Rattle.lpcc_case.specs.Points.{coefficient};
ghost use Rattle.dict.specs.Equations.{IsRow, IsReduced};
ghost use Rattle.dict.specs.Exchanges.{IsNext, IsWideNext};
ghost use Rattle.dict.specs.Dictionaries.{row_at, AreRows};
ghost use Rattle.dict.specs.Pivots.{next_or, with_next, written, IsAfter, IsWidePlace};

use crate::exchange::{enter, exchanged};
use crate::row::{Row, number_in};
use std::alloc::{AllocError, Global};

/// The row after the exchange at e, None where it stays, or the place of a number that is not
/// narrow.
fn next_row(
    raw: &mut Vec<(u32, i128)>,
    row: &Row,
    entering: &Row,
    e: u32,
    places: u32,
) -> Result<Result<Option<Row>, u32>, AllocError>
    requires room { places < 2 ^ 31 }
    requires row { IsRow narrow_bound places row.now }
    requires reduced { IsReduced row.now }
    requires entering { IsRow narrow_bound places entering.now }
    ensures next { IfOk result (λ made. IfOk made (λ fresh. IsNext places e row.now entering.now (next_or fresh row.now))) }
    ensures wide { IfOk result (λ made. IfErr made (λ at. IsWideNext places e at row.now entering.now)) }
{
    let a = number_in(row.entries(), e, places);
    if a == 0 {
        return Ok(Ok(None));
    }
    match exchanged(raw, row, entering, a, e, places)? {
        Ok(fresh) => Ok(Ok(Some(fresh))),
        Err(at) => Ok(Err(at)),
    }
}

/// The same of the row at a number other than that of the exchange.
fn next_at(
    raw: &mut Vec<(u32, i128)>,
    rows: &[Row],
    i: usize,
    entering: &Row,
    row: usize,
    e: u32,
    places: u32,
) -> Result<Result<Option<Row>, u32>, AllocError>
    requires room { places < 2 ^ 31 }
    requires within { i < length rows.now }
    requires rows { AreRows places rows.now }
    requires entering { IsRow narrow_bound places entering.now }
    ensures next { IfOk result (λ made. IfOk made (λ fresh. i ≢ row → IsNext places e (row_at rows.now i) entering.now (next_or fresh (row_at rows.now i)))) }
    ensures other { IfOk result (λ made. IfErr made (λ at. i ≢ row)) }
    ensures wide { IfOk result (λ made. IfErr made (λ at. IsWideNext places e at (row_at rows.now i) entering.now)) }
{
    if i == row {
        return Ok(Ok(None));
    }
    next_row(raw, &rows[i], entering, e, places)
}

#[inline(always)]
fn put_next(fresh: &mut Vec<(usize, Row)>, i: usize, next: Option<Row>) -> Result<(), AllocError>
    ensures { OnOk result (fresh.new.items ≡ with_next fresh.old.items i next) }
{
    if let Some(row) = next {
        fresh.push((i, row))?;
    }
    Ok(())
}

/// The rows that are new after the exchange at e, with their numbers, or the row and the place of
/// a number that is not narrow.
fn fresh_rows(
    alloc: Global,
    rows: &[Row],
    entering: &Row,
    row: usize,
    e: u32,
    places: u32,
) -> Result<Result<Vec<(usize, Row)>, (u32, u32)>, AllocError>
    requires room { places < 2 ^ 31 }
    requires few { length rows.now < 2 ^ 31 }
    requires rows { AreRows places rows.now }
    requires entering { IsRow narrow_bound places entering.now }
    ensures size { IfOk result (λ made. IfOk made (λ fresh. length (written fresh.items rows.now) ≡ length rows.now)) }
    ensures numbers { IfOk result (λ made. IfOk made (λ fresh. AllByRecursion (λ f. f.0 < length rows.now) fresh.items)) }
    ensures next { IfOk result (λ made. IfOk made (λ fresh. (i : ℕ) → i < length rows.now → i ≢ row → IsNext places e (row_at rows.now i) entering.now (row_at (written fresh.items rows.now) i))) }
    ensures within { IfOk result (λ made. IfErr made (λ at. at.0 < length rows.now)) }
    ensures other { IfOk result (λ made. IfErr made (λ at. at.0 ≢ row)) }
    ensures wide { IfOk result (λ made. IfErr made (λ at. IsWideNext places e at.1 (row_at rows.now at.0) entering.now)) }
{
    let mut raw: Vec<(u32, i128)> = Vec::with_capacity(alloc, places as usize)?;
    let mut fresh: Vec<(usize, Row)> = Vec::new(alloc);
    for i in 0..rows.len() {
        match next_at(&mut raw, rows, i, entering, row, e, places)? {
            Ok(next) => put_next(&mut fresh, i, next)?,
            Err(at) => return Ok(Err((i as u32, at))),
        }
    }
    Ok(Ok(fresh))
}

/// Writes the new rows over the old ones.
fn put_rows(rows: &mut Vec<Row>, fresh: Vec<(usize, Row)>)
    requires { AllByRecursion (λ f. f.0 < length rows.old.items) fresh.items }
    ensures { rows.new.items ≡ written fresh.items rows.old.items }
{
    for (i, row) in fresh {
        rows[i] = row;
    }
}

/// Makes the rows those after the exchange of the row with the place e. After a fault they are as
/// before.
pub fn pivot_rows(
    rows: &mut Vec<Row>,
    row: usize,
    e: u32,
    places: u32,
) -> Result<Result<(), (u32, u32)>, AllocError>
    requires room { places < 2 ^ 31 }
    requires few { length rows.old.items < 2 ^ 31 }
    requires rows { AreRows places rows.old.items }
    requires within { row < length rows.old.items }
    requires entry { coefficient (row_at rows.old.items row).entries e ≢ pos 0 }
    ensures after { IfOk result (λ made. OnOk made (IsAfter places row e rows.old.items rows.new.items)) }
    ensures wide { IfOk result (λ made. IfErr made (λ at. IsWidePlace places row e rows.old.items at)) }
    ensures unchanged { IfOk result (λ made. OnErr made (rows.new.items ≡ rows.old.items)) }
    ensures no_memory { OnErr result (rows.new.items ≡ rows.old.items) }
{
    let alloc = *rows.allocator();
    let entering = enter(alloc, &rows[row], e, places)?;
    match fresh_rows(alloc, rows, &entering, row, e, places)? {
        Ok(fresh) => {
            put_rows(rows, fresh);
            rows[row] = entering;
            Ok(Ok(()))
        },
        Err(place) => Ok(Err(place)),
    }
}
