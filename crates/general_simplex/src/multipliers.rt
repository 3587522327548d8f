//! Multipliers of cuts, as the rows of the dictionary show them.

use crate::check::Feasibility;
use crate::dictionary::Simplex;
use simplex_numbers::Number;
use simplex_rows::{Row, Variable};
use std::alloc::{AllocError, Global};

/// Multipliers of constraints, whose numbers ascend, and the factor of the cost in their sum.
/// Nothing is claimed of them.
#[derive(Drop)]
pub struct Multipliers {
    pub terms: Vec<(u32, i64)>,
    pub e: i64,
}

impl Multipliers {
    fn add(&mut self, variable: Variable, value: i64) -> Result<(), AllocError> {
        if let Some(constraint) = variable.constraint() {
            self.terms.push((constraint, value))?;
        }
        Ok(())
    }
}

#[inline(always)]
fn signed(value: i64, keep: bool) -> i64 {
    if keep { value } else { value.wrapping_neg() }
}

impl<N: Number> Simplex<N> {
    /// Adds the terms of a row, divided, with their signs or with the opposite ones. False where one
    /// does not fit.
    fn add_terms(
        &self,
        out: &mut Multipliers,
        row: &Row<N>,
        divisor: N::Divisor,
        keep: bool,
    ) -> Result<bool, AllocError> {
        for (j, entry) in row.entries.iter().enumerate() {
            if !entry.is_zero() && j < self.nonbasic.len() {
                let Some(value) = entry.divided(divisor).narrow() else {
                    return Ok(false);
                };
                let number = self.nonbasic[j];
                if number == self.cost {
                    out.e = signed(value, !keep);
                } else {
                    out.add(self.variable(number), signed(value, keep))?;
                }
            }
        }
        Ok(true)
    }

    /// The multipliers that a row shows whose variable cannot rise, or else fall, without a common
    /// divisor. None where one does not fit.
    fn multipliers_of_row(
        &self,
        alloc: Global,
        row: usize,
        rise: bool,
    ) -> Result<Option<Multipliers>, AllocError> {
        let Some(row) = self.rows.get(row) else {
            return Ok(None);
        };
        let divisor = row.divisor_of_multipliers().divisor();
        let Some(own) = row.den.divided(divisor).narrow() else {
            return Ok(None);
        };
        let is_cost = row.variable == self.cost;
        let mut out = Multipliers {
            terms: Vec::with_capacity(alloc, row.entries.len())?,
            e: 0,
        };
        if !self.add_terms(&mut out, row, divisor, is_cost || !rise)? {
            return Ok(None);
        }
        if is_cost {
            out.e = own;
        } else {
            out.add(self.variable(row.variable), signed(own, rise))?;
        }
        out.terms.sort()?;
        Ok(Some(out))
    }

    /// Both bounds of a variable, whose sum says that they lie where they do not.
    fn multipliers_of_bounds(
        &self,
        alloc: Global,
        variable: usize,
    ) -> Result<Option<Multipliers>, AllocError> {
        let variable = self.variable(variable);
        let (Some(lower), Some(upper), Some(range)) = (
            variable.lower,
            variable.upper,
            variable.range,
        ) else {
            return Ok(None);
        };
        let sign = if range > 0 { -1 } else { 1 };
        let mut terms = Vec::with_capacity(alloc, 2)?;
        terms.push((lower.min(upper), sign))?;
        terms.push((lower.max(upper), sign))?;
        Ok(Some(Multipliers { terms, e: 0 }))
    }

    /// The multipliers of a cut, by an answer of `check` that nothing is feasible.
    pub fn multipliers(
        &self,
        alloc: Global,
        found: Feasibility,
    ) -> Result<Option<Multipliers>, AllocError> {
        match found {
            Feasibility::Infeasible { row, rise } => self.multipliers_of_row(alloc, row, rise),
            Feasibility::BoundsConflict { variable } => self.multipliers_of_bounds(alloc, variable),
            _ => Ok(None),
        }
    }

    /// The multipliers of the cost, once it is least.
    pub fn multipliers_of_cost(&self, alloc: Global) -> Result<Option<Multipliers>, AllocError> {
        match self.cost_row() {
            Some(row) => self.multipliers_of_row(alloc, row, true),
            None => Ok(None),
        }
    }
}
