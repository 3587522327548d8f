//! The dictionary of a case, at its start.

use crate::columns::{ColumnBounds, Columns};
use crate::dictionary::Simplex;
use lp_base::product;
use lpcc_case::{Case, Constraint, Kind};
use simplex_numbers::Number;
use simplex_rows::{Bound, Pattern, Row, Scale, Variable, common_multiple};
use std::alloc::{AllocError, Global};

fn repeated<T: Copy + Drop>(alloc: Global, value: T, times: usize) -> Result<Vec<T>, AllocError> {
    let mut list = Vec::with_capacity(alloc, times)?;
    for _ in 0..times {
        list.push(value)?;
    }
    Ok(list)
}

fn scale_of(bounds: &[ColumnBounds], j: usize) -> Scale {
    if j < bounds.len() {
        bounds[j].scale
    } else {
        Scale { scale: 1, shift: 0 }
    }
}

fn denominator(bounds: &[ColumnBounds], terms: &[(u32, i64)]) -> Option<i64> {
    let mut d = 1;
    for term in terms {
        let scale = scale_of(bounds, term.0 as usize).scale;
        d = common_multiple(d, i128::from(scale.unsigned_abs()))?;
    }
    Some(d)
}

/// Fills a row, and gives its constant and its denominator. None where a number does not fit.
fn fill<N: Number>(
    entries: &mut [N],
    bounds: &[ColumnBounds],
    terms: &[(u32, i64)],
    constant: i64,
) -> Option<(N, N)> {
    let den = denominator(bounds, terms)?;
    let mut sum = product(constant, den);
    for term in terms {
        let j = term.0 as usize;
        let scale = scale_of(bounds, j);
        let entry = i64::of_wide(product(term.1, den.checked_div(scale.scale)?))?;
        if j < entries.len() {
            entries[j] = N::of(entry);
        }
        sum = sum.checked_add(product(entry, scale.shift))?;
    }
    Some((N::of_wide(sum)?, N::of(den)))
}

/// The row of terms and a constant. None where a number does not fit.
fn row_of<N: Number>(
    alloc: Global,
    bounds: &[ColumnBounds],
    terms: &[(u32, i64)],
    constant: i64,
    variable: usize,
) -> Result<Option<Row<N>>, AllocError> {
    let mut entries = repeated(alloc, N::of(0), bounds.len())?;
    let Some((constant, den)) = fill(entries.as_mut_slice(), bounds, terms, constant) else {
        return Ok(None);
    };
    Ok(Some(Row::of(alloc, entries, constant, den, variable)?))
}

fn variable_of(bounds: ColumnBounds, place: usize) -> Variable {
    Variable {
        lower: bounds.lower,
        upper: bounds.upper,
        range: bounds.range,
        place,
        ..Variable::free()
    }
}

fn slack_of(constraint: &Constraint, k: usize) -> Variable {
    Variable {
        lower: u32::try_from(k).ok(),
        held_at_lower: if constraint.kind == Kind::Eq { 1 } else { 0 },
        ..Variable::free()
    }
}

fn enter_pattern<N: Number>(pattern: &mut Pattern, row: usize, entries: &[N]) {
    for (k, x) in entries.iter().enumerate() {
        pattern.change(row, k, N::of(0), *x);
    }
}

fn cost_terms(alloc: Global, cost: &[i64]) -> Result<Vec<(u32, i64)>, AllocError> {
    let mut terms = Vec::new(alloc);
    for (j, c) in cost.iter().enumerate() {
        if *c != 0
            && let Ok(number) = u32::try_from(j)
        {
            terms.push((number, *c))?;
        }
    }
    Ok(terms)
}

impl<N: Number> Simplex<N> {
    /// A dictionary of columns without rows, with room for as many rows.
    fn of_columns(
        alloc: Global,
        bounds: &[ColumnBounds],
        rows: usize,
    ) -> Result<Simplex<N>, AllocError> {
        let columns = bounds.len();
        let mut variables = Vec::with_capacity(alloc, columns)?;
        let mut nonbasic = Vec::with_capacity(alloc, columns)?;
        let mut scales = Vec::with_capacity(alloc, columns)?;
        let mut products = Vec::with_capacity(alloc, columns)?;
        for (j, own) in bounds.iter().enumerate() {
            variables.push(variable_of(*own, j))?;
            nonbasic.push(j)?;
            scales.push(own.scale)?;
            products.push(N::of(0).product(N::of(0)))?;
        }
        Ok(Simplex {
            rows: Vec::new(alloc),
            variables,
            nonbasic,
            pattern: Pattern::zero(alloc, rows, columns)?,
            touched: Vec::with_capacity(alloc, rows)?,
            violations: Vec::with_capacity(alloc, rows)?,
            terms: Vec::with_capacity(alloc, columns)?,
            products,
            scales,
            bounds: Vec::new(alloc),
            cost: 0,
            limit: None,
            held: Vec::new(alloc),
            overflowed: false,
        })
    }

    /// Adds a basic variable with its row.
    fn add_row(&mut self, made: Option<Row<N>>, variable: Variable) -> Result<(), AllocError> {
        let Some(row) = made else {
            self.overflowed = true;
            return Ok(());
        };
        let place = self.rows.len();
        enter_pattern(&mut self.pattern, place, row.entries.as_slice());
        self.rows.push(row)?;
        self.violations.push(0)?;
        self.variables.push(Variable {
            basic: true,
            place,
            ..variable
        })?;
        Ok(())
    }

    fn add_constraint(
        &mut self,
        alloc: Global,
        bounds: &[ColumnBounds],
        k: usize,
        constraint: &Constraint,
    ) -> Result<Bound, AllocError> {
        let variable = self.variables.len();
        let row = row_of(
            alloc,
            bounds,
            constraint.terms.as_slice(),
            constraint.rhs.wrapping_neg(),
            variable,
        )?;
        self.add_row(row, slack_of(constraint, k))?;
        Ok(Bound {
            variable,
            upper: false,
        })
    }

    fn add_constraints(
        &mut self,
        alloc: Global,
        case: &Case,
        columns: &Columns,
    ) -> Result<(), AllocError> {
        let bound_of = columns.bound_of.as_slice();
        for (k, constraint) in case.constraints().iter().enumerate() {
            let known = if k < bound_of.len() {
                bound_of[k]
            } else {
                None
            };
            let bound = match known {
                Some(bound) => bound,
                None => self.add_constraint(alloc, columns.bounds.as_slice(), k, constraint)?,
            };
            self.bounds.push(bound)?;
        }
        Ok(())
    }

    /// The dictionary of a case at its start, with no limit, nothing held but the equations.
    pub fn of_case(alloc: Global, case: &Case) -> Result<Simplex<N>, AllocError> {
        let columns = Columns::of_case(alloc, case)?;
        let bounds = columns.bounds.as_slice();
        let mut made = Simplex::of_columns(alloc, bounds, columns.rows())?;
        made.add_constraints(alloc, case, &columns)?;
        made.cost = made.variables.len();
        let terms = cost_terms(alloc, case.cost())?;
        let row = row_of(alloc, bounds, terms.as_slice(), 0, made.cost)?;
        made.add_row(row, Variable::free())?;
        Ok(made)
    }
}
