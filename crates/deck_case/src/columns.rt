//! Bounds of columns as constraints.
ghost use Rattle.std.specs.Prelude.{◌≡◌, ◌+◌, ◌∷◌, ◌++◌, ◌<◌, ◌^◌, [], IfErr, IfOk, OnOk, length, map, take};
ghost use Rattle.std.specs.List.{enumerate_from, flat_map, range_with_len};
ghost use Rattle.deck_case.specs.CaseParts.{constraints_of_column, constraints_of_columns, fixed_at, for_bound, lower_bound, upper_bound};
ghost use Rattle.deck_case.specs.Steps.{IsFirstOf};
ghost use Rattle.deck_case.specs.Wide.{named, wide_bound, wide_column};

use crate::CaseFault;
use crate::entries::Terms;
use crate::numbers::narrow;
use crate::relations::{at_least, equal_to};
use decks::{Bound, Column};
use lp_base::Sequence;
use lp_nums::Frac;
use lpcc_case::Constraint;
use std::alloc::{AllocError, Global};

fn one_term(alloc: Global, column: u32, coefficient: i64) -> Result<Terms, AllocError>
    ensures { IfOk result (λ made. made ≡ (column, coefficient) ∷ []) }
{
    let mut terms = Sequence::new(alloc);
    terms.push((column, coefficient))?;
    Ok(terms)
}

/// The numerator and the denominator of a bound, where both are at most 2^52 in size.
fn parts(value: Frac, line: u32) -> Result<(i64, i64), CaseFault>
    ensures ok { IfOk result (λ made. (made.0 ≡ value.num) × (made.1 ≡ value.den)) }
    ensures narrow { IfOk result (λ made. named line (value.num ∷ value.den ∷ []) ≡ []) }
    ensures err { IfErr result (IsFirstOf (named line (value.num ∷ value.den ∷ []))) }
{
    let Some(num) = narrow(value.num()) else {
        return Err(CaseFault::RowWide { line });
    };
    let Some(den) = narrow(value.den()) else {
        return Err(CaseFault::RowWide { line });
    };
    Ok((num, den))
}

/// Adds the lower bound of a column, if it has one.
fn push_lower(
    alloc: Global,
    column: u32,
    bound: &Bound,
    made: &mut Vec<Constraint>,
) -> Result<(), CaseFault>
    ensures ok { OnOk result (made.new.items
        ≡ made.old.items ++ for_bound (lower_bound column) bound.now.value) }
    ensures narrow { OnOk result (wide_bound bound.now ≡ []) }
    ensures err { IfErr result (IsFirstOf (wide_bound bound.now)) }
{
    if let Some(value) = bound.value {
        let (num, den) = parts(value, bound.line)?;
        made.push(at_least(one_term(alloc, column, den)?, num))?;
    }
    Ok(())
}

/// Adds the upper bound of a column, if it has one, with its signs changed.
fn push_upper(
    alloc: Global,
    column: u32,
    bound: &Bound,
    made: &mut Vec<Constraint>,
) -> Result<(), CaseFault>
    ensures ok { OnOk result (made.new.items
        ≡ made.old.items ++ for_bound (upper_bound column) bound.now.value) }
    ensures narrow { OnOk result (wide_bound bound.now ≡ []) }
    ensures err { IfErr result (IsFirstOf (wide_bound bound.now)) }
{
    if let Some(value) = bound.value {
        let (num, den) = parts(value, bound.line)?;
        made.push(at_least(one_term(alloc, column, -den)?, -num))?;
    }
    Ok(())
}

/// Adds that a column is equal to the bound, if there is one.
fn push_fixed(
    alloc: Global,
    column: u32,
    bound: &Bound,
    made: &mut Vec<Constraint>,
) -> Result<(), CaseFault>
    ensures ok { OnOk result (made.new.items
        ≡ made.old.items ++ for_bound (fixed_at column) bound.now.value) }
    ensures narrow { OnOk result (wide_bound bound.now ≡ []) }
    ensures err { IfErr result (IsFirstOf (wide_bound bound.now)) }
{
    if let Some(value) = bound.value {
        let (num, den) = parts(value, bound.line)?;
        made.push(equal_to(one_term(alloc, column, den)?, num))?;
    }
    Ok(())
}

/// Adds the constraints of a column.
fn push_column(
    alloc: Global,
    number: u32,
    column: &Column,
    made: &mut Vec<Constraint>,
) -> Result<(), CaseFault>
    ensures ok { OnOk result (made.new.items
        ≡ made.old.items ++ constraints_of_column number column.now) }
    ensures narrow { OnOk result (wide_column column.now ≡ []) }
    ensures err { IfErr result (IsFirstOf (wide_column column.now)) }
{
    if column.fixed {
        return push_fixed(alloc, number, &column.lower, made);
    }
    push_lower(alloc, number, &column.lower, made)?;
    push_upper(alloc, number, &column.upper, made)
}

/// Adds the constraints of the columns, and gives for each the number of the first one.
pub fn push_columns(
    alloc: Global,
    columns: &[Column],
    made: &mut Vec<Constraint>,
) -> Result<Vec<usize>, CaseFault>
    requires { length columns.now < 2 ^ 32 }
    ensures ok { OnOk result (made.new.items
        ≡ made.old.items ++ constraints_of_columns (enumerate_from 0 columns.now)) }
    ensures firsts { IfOk result (λ firsts. firsts.items
        ≡ map (λ j. length made.old.items
        + length (constraints_of_columns (take j (enumerate_from 0 columns.now))))
        (range_with_len 0 (length columns.now))) }
    ensures narrow { OnOk result (flat_map wide_column columns.now ≡ []) }
    ensures err { IfErr result (IsFirstOf (flat_map wide_column columns.now)) }
{
    let mut firsts = Vec::with_capacity(alloc, columns.len())?;
    for (number, column) in columns.iter().enumerate() {
        firsts.push(made.len())?;
        push_column(alloc, number as u32, column, made)?;
    }
    Ok(firsts)
}
