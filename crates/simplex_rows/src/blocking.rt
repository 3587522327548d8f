//! The ratio test.

use crate::row::Row;
use crate::variable::{Variable, variable_at};
use simplex_numbers::Number;

/// A row whose variable comes to a bound where that of a column moves by `constant / size`.
#[derive(Clone, Copy)]
pub struct Blocking<N: Number> {
    pub row: usize,
    variable: usize,
    /// Whether it is the other bound than that which the variable is counted from.
    pub reflect: bool,
    constant: N,
    size: N,
}

/// How far the variable of a row stands below its other bound, times the denominator, or the
/// largest number.
#[inline(always)]
fn below_range<N: Number>(row: &Row<N>, range: i64) -> N {
    let top = N::of(range).product(row.den);
    N::of_product(N::difference(top, row.constant.product(N::of(1)))).unwrap_or(N::largest())
}

#[inline(always)]
fn blocking_of<N: Number>(
    i: usize,
    row: &Row<N>,
    variable: Variable,
    col: usize,
    rise: bool,
) -> Option<Blocking<N>> {
    let entry = row.entry(col);
    if entry.is_zero() || variable.is_free() {
        return None;
    }
    let falls = entry.is_negative() == rise;
    let (reflect, constant) = if variable.is_held_here() {
        (false, N::of(0))
    } else if variable.is_held_there() {
        (true, N::of(0))
    } else if falls {
        (false, row.constant)
    } else {
        (true, below_range(row, variable.range?))
    };
    Some(Blocking {
        row: i,
        variable: row.variable,
        reflect,
        constant,
        size: entry.size(),
    })
}

#[inline(always)]
fn is_sooner<N: Number>(a: &Blocking<N>, b: &Blocking<N>) -> bool {
    let later = N::difference(a.constant.product(b.size), b.constant.product(a.size));
    N::is_negative_product(later) || (N::is_zero_product(later) && a.variable < b.variable)
}

/// The ratio test: of the rows whose variable comes to a bound where that of the column rises, or
/// else falls, the first. `touched` are the rows in which it is not zero.
pub fn ratio_test<N: Number>(
    rows: &[Row<N>],
    touched: &[usize],
    variables: &[Variable],
    cost: usize,
    col: usize,
    rise: bool,
) -> Option<Blocking<N>> {
    let mut best: Option<Blocking<N>> = None;
    for number in touched {
        let i = *number;
        if i >= rows.len() || rows[i].variable == cost {
            continue;
        }
        let row = &rows[i];
        let variable = variable_at(variables, row.variable);
        let Some(blocking) = blocking_of(i, row, variable, col, rise) else {
            continue;
        };
        let better = match &best {
            None => true,
            Some(first) => is_sooner(&blocking, first),
        };
        if better {
            best = Some(blocking);
        }
    }
    best
}

impl<N: Number> Blocking<N> {
    /// Whether the range of the column's variable ends before the row blocks it.
    pub fn is_behind(&self, range: Option<i64>) -> bool {
        let Some(range) = range else {
            return false;
        };
        let own = N::of(range).product(self.size);
        let left = N::difference(self.constant.product(N::of(1)), own);
        !N::is_negative_product(left)
    }
}
