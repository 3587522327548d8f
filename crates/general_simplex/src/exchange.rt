//! Pivots, and variables that are counted from their other bound.

use crate::dictionary::Simplex;
use simplex_numbers::Number;
use simplex_rows::{Pattern, PivotRow, Row, Variable};
use std::alloc::AllocError;

/// The terms of the row that leaves, but for that of the column.
fn collect_terms<N: Number>(
    terms: &mut Vec<(usize, N)>,
    entries: &[N],
    col: usize,
) -> Result<(), AllocError> {
    terms.clear();
    for (k, v) in entries.iter().enumerate() {
        if !v.is_zero() && k != col {
            terms.push((k, *v))?;
        }
    }
    Ok(())
}

/// Eliminates from the rows in which the column is not zero.
fn eliminate_others<N: Number>(
    rows: &mut [Row<N>],
    touched: &[usize],
    leaving: usize,
    pivot: PivotRow<N>,
    terms: &[(usize, N)],
    pattern: &mut Pattern,
    products: &mut [N::Product],
) -> bool {
    for number in touched {
        let i = *number;
        if i != leaving
            && i < rows.len()
            && !rows[i].eliminate(pivot, terms, pattern, i, products)
        {
            return false;
        }
    }
    true
}

fn set_place(variables: &mut [Variable], number: usize, basic: bool, place: usize) {
    if number < variables.len() {
        let mut variable = variables[number];
        variable.basic = basic;
        variable.place = place;
        variables[number] = variable;
    }
}

fn flip(variables: &mut [Variable], number: usize) {
    if number < variables.len() {
        let mut variable = variables[number];
        variable.reflected = !variable.reflected;
        variables[number] = variable;
    }
}

fn reflect_columns<N: Number>(
    rows: &mut [Row<N>],
    touched: &[usize],
    col: usize,
    range: i64,
) -> bool {
    for number in touched {
        let i = *number;
        if i < rows.len() && rows[i].reflect_column(col, range).is_none() {
            return false;
        }
    }
    true
}

impl<N: Number> Simplex<N> {
    fn overflow(&mut self) -> bool {
        self.overflowed = true;
        false
    }

    /// Exchanges the variable of the row with that of the column. False where a number does not fit.
    pub(crate) fn pivot(&mut self, row: usize, col: usize) -> Result<bool, AllocError> {
        if row >= self.rows.len() || col >= self.nonbasic.len() {
            return Ok(self.overflow());
        }
        let leaving = &self.rows[row];
        let pivot = PivotRow {
            col,
            entry: leaving.entry(col),
            constant: leaving.constant,
            den: leaving.den,
            magnitude: leaving.magnitude,
        };
        let left = leaving.variable;
        if pivot.entry.is_zero() {
            return Ok(self.overflow());
        }
        collect_terms(&mut self.terms, leaving.entries.as_slice(), col)?;
        self.pattern.list(col, &mut self.touched)?;
        let fits = eliminate_others(
            self.rows.as_mut_slice(),
            self.touched.as_slice(),
            row,
            pivot,
            self.terms.as_slice(),
            &mut self.pattern,
            self.products.as_mut_slice(),
        );
        if !fits {
            return Ok(self.overflow());
        }
        let entered = self.nonbasic[col];
        self.rows[row].enter(pivot, entered);
        self.nonbasic[col] = left;
        set_place(self.variables.as_mut_slice(), entered, true, row);
        set_place(self.variables.as_mut_slice(), left, false, col);
        Ok(true)
    }

    /// Counts the variable of a row from its other bound. False where a number does not fit.
    pub(crate) fn reflect_row(&mut self, row: usize) -> bool {
        if row >= self.rows.len() {
            return false;
        }
        let number = self.rows[row].variable;
        let Some(range) = self.variable(number).range else {
            return false;
        };
        if self.rows[row].reflect(range).is_none() {
            return self.overflow();
        }
        flip(self.variables.as_mut_slice(), number);
        true
    }

    /// Counts the variable of a column from its other bound. False where a number does not fit.
    pub(crate) fn reflect_column(&mut self, col: usize) -> Result<bool, AllocError> {
        if col >= self.nonbasic.len() {
            return Ok(false);
        }
        let number = self.nonbasic[col];
        let Some(range) = self.variable(number).range else {
            return Ok(false);
        };
        self.pattern.list(col, &mut self.touched)?;
        let rows = self.rows.as_mut_slice();
        if !reflect_columns(rows, self.touched.as_slice(), col, range) {
            return Ok(self.overflow());
        }
        flip(self.variables.as_mut_slice(), number);
        Ok(true)
    }
}
