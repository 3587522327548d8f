//! Whether the held constraints and the limit can be met: the walk of Dutertre and de Moura.

use crate::dictionary::Simplex;
use simplex_numbers::Number;
use simplex_rows::{Leaving, PivotRule, entering_column, leaving_row, measure, measure_all};
use std::alloc::AllocError;

/// After as many pivots for each row and column Bland's rule is taken, by which the walk ends.
const PIVOTS_BEFORE_BLAND: u64 = 3;

/// As many times more pivots are made before the walk is given up.
const PATIENCE: u64 = 16;

/// What `check` found.
#[derive(Clone, Copy, Debug, PartialEq, Eq)]
pub enum Feasibility {
    /// The dictionary stands at a point.
    Feasible,
    /// The variable of this row is to rise, or else to fall, and no column lets it.
    Infeasible { row: usize, rise: bool },
    /// The variable is held at both of its bounds, which lie apart.
    BoundsConflict { variable: usize },
    /// A number did not fit, or the pivots are spent.
    Unknown,
}

impl<N: Number> Simplex<N> {
    /// A variable that is held at both of its bounds, which lie apart.
    fn bounds_conflict(&self) -> Option<usize> {
        for constraint in self.held.as_slice() {
            if let Some(bound) = self.bound(*constraint) {
                let variable = self.variable(bound.variable);
                if variable.held_at_lower > 0
                    && variable.held_at_upper > 0
                    && variable.range != Some(0)
                {
                    return Some(bound.variable);
                }
            }
        }
        None
    }

    /// Whether the variable of a column is held at its other bound alone.
    fn stands_off(&self, col: usize) -> bool {
        if col >= self.nonbasic.len() {
            return false;
        }
        let number = self.nonbasic[col];
        let variable = self.variable(number);
        number != self.cost && variable.is_held_there() && !variable.is_held_here()
    }

    /// Counts each variable that is not basic from the bound at which it is held.
    fn reflect_held(&mut self) -> Result<bool, AllocError> {
        for col in 0..self.nonbasic.len() {
            if self.stands_off(col) && !self.reflect_column(col)? {
                return Ok(false);
            }
        }
        Ok(true)
    }

    /// The entries of the cost's row, and none where that is this row, or the cost is not basic.
    fn costs_beside(&self, row: usize) -> &[N] {
        match self.cost_row() {
            Some(cost) if cost != row && cost < self.rows.len() => {
                self.rows[cost].entries.as_slice()
            },
            _ => &[],
        }
    }

    fn entering(&self, row: usize, rule: PivotRule, rise: bool) -> Option<usize> {
        let costs = self.costs_beside(row);
        let row = self.rows.get(row)?;
        entering_column(
            row.entries.as_slice(),
            costs,
            self.nonbasic.as_slice(),
            self.variables.as_slice(),
            &self.pattern,
            rule,
            rise,
        )
    }

    fn rule(&self, bland: bool) -> PivotRule {
        PivotRule {
            cost: self.cost,
            limited: self.limit.is_some(),
            cost_column: self.cost_column(),
            bland,
        }
    }

    /// Measures the violations of the rows that the last pivot touched, or of all rows.
    fn measure(&mut self, rule: PivotRule, all: bool) {
        let violations = self.violations.as_mut_slice();
        let rows = self.rows.as_slice();
        let variables = self.variables.as_slice();
        if all {
            measure_all(violations, rows, variables, rule);
        } else {
            measure(violations, rows, self.touched.as_slice(), variables, rule);
        }
    }

    fn leaving(&self, rule: PivotRule) -> Option<Leaving> {
        leaving_row(
            self.violations.as_slice(),
            self.rows.as_slice(),
            self.variables.as_slice(),
            rule,
        )
    }

    /// One pivot, or the end of the walk.
    fn step(&mut self, rule: PivotRule) -> Result<Option<Feasibility>, AllocError> {
        let Some(leaving) = self.leaving(rule) else {
            return Ok(Some(Feasibility::Feasible));
        };
        if leaving.repair.reflect && !self.reflect_row(leaving.row) {
            return Ok(Some(Feasibility::Unknown));
        }
        let rise = leaving.repair.rise;
        let Some(col) = self.entering(leaving.row, rule, rise) else {
            return Ok(Some(Feasibility::Infeasible {
                row: leaving.row,
                rise,
            }));
        };
        if !self.pivot(leaving.row, col)? {
            return Ok(Some(Feasibility::Unknown));
        }
        Ok(None)
    }

    /// After how many pivots Bland's rule is taken.
    pub(crate) fn pivots_before_bland(&self) -> u64 {
        (self.rows.len() as u64)
            .saturating_add(self.nonbasic.len() as u64)
            .saturating_mul(PIVOTS_BEFORE_BLAND)
    }

    /// As many pivots as a walk may make.
    pub(crate) fn most_pivots(&self) -> u64 {
        self.pivots_before_bland().saturating_mul(PATIENCE)
    }

    /// Walks until the held constraints and the limit are met, or cannot be.
    pub fn check(&mut self) -> Result<Feasibility, AllocError> {
        if self.overflowed {
            return Ok(Feasibility::Unknown);
        }
        if let Some(variable) = self.bounds_conflict() {
            return Ok(Feasibility::BoundsConflict { variable });
        }
        if !self.reflect_held()? {
            return Ok(Feasibility::Unknown);
        }
        let before_bland = self.pivots_before_bland();
        let mut measured = None;
        for made in 0..self.most_pivots() {
            let rule = self.rule(made > before_bland);
            self.measure(rule, measured != Some(rule.cost_column));
            measured = Some(rule.cost_column);
            if let Some(end) = self.step(rule)? {
                return Ok(end);
            }
        }
        Ok(Feasibility::Unknown)
    }
}
