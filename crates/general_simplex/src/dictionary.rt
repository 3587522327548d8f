//! The standing dictionary with its marks.

use simplex_numbers::Number;
use simplex_rows::{Bound, Limit, Pattern, Row, Scale, Variable, variable_at};
use std::alloc::AllocError;

/// A standing dictionary of a case in numbers of one width, with the constraints that are held with
/// equality and the limit on the cost.
pub struct Simplex<N: Number> {
    pub(crate) rows: Vec<Row<N>>,
    /// The columns of the case, the slacks of its constraints of several terms, and the cost.
    pub(crate) variables: Vec<Variable>,
    /// The variable of each column.
    pub(crate) nonbasic: Vec<usize>,
    pub(crate) pattern: Pattern,
    /// Room for the rows in which a column is not zero.
    pub(crate) touched: Vec<usize>,
    /// How far the variable of each row violates a bound, and 0 where it does not.
    pub(crate) violations: Vec<u64>,
    /// Room for the terms of the row that leaves.
    pub(crate) terms: Vec<(usize, N)>,
    /// Room for the products of one row.
    pub(crate) products: Vec<N::Product>,
    /// The columns of the case.
    pub(crate) scales: Vec<Scale>,
    /// The constraints of the case.
    pub(crate) bounds: Vec<Bound>,
    /// The variable of the cost.
    pub(crate) cost: usize,
    pub(crate) limit: Option<Limit>,
    /// The constraints that are held with equality, in the order of `hold`.
    pub(crate) held: Vec<u32>,
    /// A number did not fit, and the dictionary is to be made anew.
    pub(crate) overflowed: bool,
}

/// By a call, which keeps the models of the functions small that own one.
impl<N: Number + Drop> Drop for Simplex<N> {
    fn drop(self) {
        let Simplex {
            rows: _,
            variables: _,
            nonbasic: _,
            pattern: _,
            touched: _,
            violations: _,
            terms: _,
            products: _,
            scales: _,
            bounds: _,
            cost: _,
            limit: _,
            held: _,
            overflowed: _,
        } = self;
    }
}

fn moved(count: u32, up: bool) -> u32 {
    if up {
        count.wrapping_add(1)
    } else {
        count.saturating_sub(1)
    }
}

fn mark(variables: &mut [Variable], bound: Bound, held: bool) {
    if bound.variable < variables.len() {
        let mut variable = variables[bound.variable];
        if bound.upper {
            variable.held_at_upper = moved(variable.held_at_upper, held);
        } else {
            variable.held_at_lower = moved(variable.held_at_lower, held);
        }
        variables[bound.variable] = variable;
    }
}

impl<N: Number> Simplex<N> {
    /// Whether a number did not fit since the dictionary was made. It then answers nothing more.
    pub fn has_overflowed(&self) -> bool {
        self.overflowed
    }

    #[inline(always)]
    pub(crate) fn variable(&self, number: usize) -> Variable {
        variable_at(self.variables.as_slice(), number)
    }

    /// The column of the cost, where it is not basic.
    #[inline(always)]
    pub(crate) fn cost_column(&self) -> Option<usize> {
        let variable = self.variable(self.cost);
        if variable.basic {
            None
        } else {
            Some(variable.place)
        }
    }

    /// The row of the cost, where it is basic.
    pub(crate) fn cost_row(&self) -> Option<usize> {
        let variable = self.variable(self.cost);
        if variable.basic {
            Some(variable.place)
        } else {
            None
        }
    }

    pub(crate) fn bound(&self, constraint: u32) -> Option<Bound> {
        self.bounds.get(constraint as usize).copied()
    }

    fn mark(&mut self, constraint: u32, held: bool) {
        if let Some(bound) = self.bound(constraint) {
            mark(self.variables.as_mut_slice(), bound, held);
        }
    }

    fn release_all(&mut self) {
        for _ in 0..self.held.len() {
            if let Some(constraint) = self.held.pop() {
                self.mark(constraint, false);
            }
        }
    }

    /// Holds these constraints with equality, and no others besides the equations.
    pub fn hold(&mut self, constraints: &[u32]) -> Result<(), AllocError> {
        self.release_all();
        for constraint in constraints {
            self.held.push(*constraint)?;
            self.mark(*constraint, true);
        }
        Ok(())
    }

    /// Asks for a cost below `z / d` from now on; `d` is above 0. False where that does not fit, or
    /// the cost is not basic: then nothing has changed.
    pub fn set_limit(&mut self, z: i128, d: i64) -> bool {
        let Some(row) = self.cost_row() else {
            return false;
        };
        if row >= self.rows.len() {
            return false;
        }
        let from = self.limit.unwrap_or(Limit { z: 0, d: 1 });
        let to = Limit { z, d };
        if self.rows[row].shift(from, to).is_none() {
            return false;
        }
        self.limit = Some(to);
        true
    }

    /// Whether this is the limit.
    pub fn has_limit(&self, limit: Option<(i128, i64)>) -> bool {
        match (self.limit, limit) {
            (None, None) => true,
            (Some(own), Some((z, d))) => own.z == z && own.d == d,
            _ => false,
        }
    }
}
