//! The fractions of the columns at a point or in a direction of a dictionary.
ghost use Rattle.std.specs.Prelude.{◌≡◌, ◌<◌, ℕ, pos, length, IfOk, IfSome};
ghost use Rattle.lp_base.specs.Numbers.{IsNarrow};
ghost use Rattle.dict.specs.Dictionaries.{form_at, row_at};
ghost use Rattle.dict.specs.Exchanges.{turn};
ghost use Rattle.walks.specs.Duals.{IsPlaced};
ghost use Rattle.walks.specs.Steps.{IsSized};
ghost use Rattle.basic_solutions.specs.Readings.{AreReadings, AreReadUpto, IsFractionOf, IsRowRead, fraction, value_in, weight};
ghost use Rattle.basic_solutions.specs.Writes.{with_fraction};

use crate::duals::turned;
use dict::Dict;
use lp_nums::Frac;
use lpcc_case::{Case, Form};
use std::alloc::{AllocError, Global};

/// The number of a row that is read over its denominator.
#[inline(always)]
fn weight(dict: &Dict, go: Option<(u32, bool)>, row: u32) -> i64
    requires { row < length dict.now.rows }
    ensures value { result ≡ weight dict.now go row }
    ensures narrow { IsNarrow result }
{
    match go {
        None => dict.constant(row),
        Some((col, down)) => turned(dict.entry(row, col), down),
    }
}

/// That number over the denominator, in lowest terms.
fn row_value(dict: &Dict, go: Option<(u32, bool)>, row: u32) -> Frac
    requires { row < length dict.now.rows }
    ensures { IsFractionOf (weight dict.now go row) (row_at dict.now.rows row).den result }
{
    Frac::reduced(
        i128::from(weight(dict, go, row)),
        i128::from(dict.denominator(row)),
    )
}

/// Reads the row of a column.
fn put_row(values: &mut Vec<Frac>, dict: &Dict, go: Option<(u32, bool)>, row: u32)
    requires row { row < length dict.now.rows }
    requires within { (c : ℕ) → form_at dict.now.basic row ≡ Form.Col c → c < length values.old.items }
    ensures { IsRowRead dict.now go row values.old.items values.new.items }
{
    if let Form::Col(c) = dict.basic(row) {
        values[c as usize] = row_value(dict, go, row);
    }
}

/// The fractions of columns that do not go.
fn zero_values(alloc: Global, count: u32) -> Result<Vec<Frac>, AllocError>
    ensures size { IfOk result (λ values. length values.items ≡ count) }
    ensures zero { IfOk result (λ values. (c : ℕ) → value_in values.items c ≡ fraction (pos 0) (pos 1)) }
{
    let mut values: Vec<Frac> = Vec::with_capacity(alloc, count as usize)?;
    for _ in 0..count {
        values.push(Frac::whole(0))?;
    }
    Ok(values)
}

#[inline(always)]
fn put_fraction(values: &mut Vec<Frac>, goes: Form, value: Frac)
    requires { (c : ℕ) → goes ≡ Form.Col c → c < length values.old.items }
    ensures { values.new.items ≡ with_fraction values.old.items goes value }
{
    if let Form::Col(c) = goes {
        values[c as usize] = value;
    }
}

/// One step up, or down.
#[inline(always)]
fn step(down: bool) -> Frac
    ensures { result ≡ fraction (turn down (pos 1)) (pos 1) }
{
    Frac::whole(if down { -1 } else { 1 })
}

/// Lets the form that goes go by one step, where it is a column.
fn put_going(case: &Case, dict: &Dict, go: Option<(u32, bool)>, values: &mut Vec<Frac>)
    requires sized { IsSized case.now dict.now }
    requires placed { IsPlaced case.now dict.now }
    requires going { IfSome go (λ g. g.0 < length dict.now.nonbasic) }
    requires size { length values.old.items ≡ case.now.columns }
    requires zero { (c : ℕ) → value_in values.old.items c ≡ fraction (pos 0) (pos 1) }
    ensures { AreReadUpto case.now dict.now go values.new.items 0 }
{
    match go {
        None => {},
        Some((col, down)) => put_fraction(values, dict.nonbasic(col), step(down)),
    }
}

/// The fractions of the columns at the point at which all nonbasic forms are 0, or in the direction
/// in which the one at a column goes up, or down, by 1.
pub fn readings(
    alloc: Global,
    case: &Case,
    dict: &Dict,
    go: Option<(u32, bool)>,
) -> Result<Vec<Frac>, AllocError>
    requires sized { IsSized case.now dict.now }
    requires placed { IsPlaced case.now dict.now }
    requires going { IfSome go (λ g. g.0 < length dict.now.nonbasic) }
    ensures { IfOk result (λ values. AreReadings case.now dict.now go values.items) }
{
    let mut values = zero_values(alloc, case.columns())?;
    put_going(case, dict, go, &mut values);
    for row in 0..dict.rows() {
        put_row(&mut values, dict, go, row);
    }
    Ok(values)
}
