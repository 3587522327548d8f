//! The cost, once the dictionary stands at a point: the simplex method with bounds.

use crate::dictionary::Simplex;
use simplex_numbers::Number;
use simplex_rows::{Blocking, Variable, ratio_test, variable_at};
use std::alloc::AllocError;

/// What became of the cost.
#[derive(Clone, Copy, Debug, PartialEq, Eq)]
pub enum Optimum {
    /// It is least; of `enter_cost`: it is basic, and so strictly below the limit.
    Reached,
    /// The variable of this column can rise, or else fall, without end.
    Unbounded { col: usize, rise: bool },
    /// A number did not fit, or the pivots are spent.
    Unknown,
}

/// A column by which the cost falls, and whether its variable rises.
#[derive(Clone, Copy)]
struct Descent<N> {
    col: usize,
    rise: bool,
    variable: usize,
    size: N,
}

/// The column of the largest entry in the row of the cost whose variable may move so that the cost
/// falls; by Bland's rule that of the least variable.
fn steepest<N: Number>(
    entries: &[N],
    nonbasic: &[usize],
    variables: &[Variable],
    bland: bool,
) -> Option<Descent<N>> {
    let mut best: Option<Descent<N>> = None;
    for (j, entry) in entries.iter().enumerate() {
        if entry.is_zero() || j >= nonbasic.len() {
            continue;
        }
        let number = nonbasic[j];
        let variable = variable_at(variables, number);
        let rise = entry.is_negative();
        if !variable.is_free() && (!rise || variable.is_held_here()) {
            continue;
        }
        let size = entry.size();
        let better = match &best {
            None => true,
            Some(b) => if bland {
                number < b.variable
            } else {
                size.is_above(b.size)
            },
        };
        if better {
            best = Some(Descent {
                col: j,
                rise,
                variable: number,
                size,
            });
        }
    }
    best
}

impl<N: Number> Simplex<N> {
    fn leave(&mut self, blocking: Blocking<N>, col: usize) -> Result<bool, AllocError> {
        if blocking.reflect && !self.reflect_row(blocking.row) {
            return Ok(false);
        }
        self.pivot(blocking.row, col)
    }

    fn ratio_test(&mut self, col: usize, rise: bool) -> Result<Option<Blocking<N>>, AllocError> {
        self.pattern.list(col, &mut self.touched)?;
        Ok(ratio_test(
            self.rows.as_slice(),
            self.touched.as_slice(),
            self.variables.as_slice(),
            self.cost,
            col,
            rise,
        ))
    }

    /// Makes the cost basic, by which it comes to stand strictly below the limit.
    pub fn enter_cost(&mut self) -> Result<Optimum, AllocError> {
        if self.overflowed {
            return Ok(Optimum::Unknown);
        }
        let Some(col) = self.cost_column() else {
            return Ok(Optimum::Reached);
        };
        let Some(blocking) = self.ratio_test(col, false)? else {
            return Ok(Optimum::Unbounded { col, rise: false });
        };
        if !self.leave(blocking, col)? {
            return Ok(Optimum::Unknown);
        }
        Ok(Optimum::Reached)
    }

    fn steepest(&self, bland: bool) -> Option<Descent<N>> {
        let row = self.rows.get(self.cost_row()?)?;
        steepest(
            row.entries.as_slice(),
            self.nonbasic.as_slice(),
            self.variables.as_slice(),
            bland,
        )
    }

    /// How far the variable of a column may go from bound to bound.
    fn range_of_column(&self, col: usize) -> Option<i64> {
        let number = self.nonbasic.get(col)?;
        self.variable(*number).range
    }

    /// One pivot, or the end of the walk.
    fn descend(&mut self, bland: bool) -> Result<Option<Optimum>, AllocError> {
        let Some(Descent { col, rise, .. }) = self.steepest(bland) else {
            return Ok(Some(Optimum::Reached));
        };
        let range = self.range_of_column(col);
        let moved = match self.ratio_test(col, rise)? {
            None => {
                if range.is_none() {
                    return Ok(Some(Optimum::Unbounded { col, rise }));
                }
                self.reflect_column(col)?
            },
            Some(blocking) => {
                if blocking.is_behind(range) {
                    self.reflect_column(col)?
                } else {
                    self.leave(blocking, col)?
                }
            },
        };
        Ok(if moved { None } else { Some(Optimum::Unknown) })
    }

    /// Makes the cost least, from a point at which the dictionary stands.
    pub fn optimise(&mut self) -> Result<Optimum, AllocError> {
        let begun = self.enter_cost()?;
        if begun != Optimum::Reached {
            return Ok(begun);
        }
        let before_bland = self.pivots_before_bland();
        for made in 0..self.most_pivots() {
            if let Some(end) = self.descend(made > before_bland)? {
                return Ok(end);
            }
        }
        Ok(Optimum::Unknown)
    }
}
