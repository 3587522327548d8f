//! Which constraints are bounds of one column alone.

use lpcc_case::{Case, Constraint, Kind};
use simplex_rows::{Bound, Scale};
use std::alloc::{AllocError, Global};

/// The bounds of a column: the constraint of each, and the column in terms of its variable.
#[derive(Clone, Copy)]
pub struct ColumnBounds {
    pub lower: Option<u32>,
    pub upper: Option<u32>,
    pub scale: Scale,
    pub range: Option<i64>,
}

/// The columns of a case with their bounds, and which constraints these are.
pub struct Columns {
    pub bounds: Vec<ColumnBounds>,
    /// For each constraint the bound that it is, where it is one of a column.
    pub bound_of: Vec<Option<Bound>>,
}

/// By a call, which keeps the models of the functions small that own one.
impl Drop for Columns {
    fn drop(self) {
        let Columns {
            bounds: _,
            bound_of: _,
        } = self;
    }
}

/// A constraint on one column: `factor` times the column is at least `rhs`.
#[derive(Clone, Copy)]
struct Single {
    column: usize,
    factor: i64,
    rhs: i64,
}

fn single_of(constraint: &Constraint) -> Option<Single> {
    if constraint.kind == Kind::Eq {
        return None;
    }
    match constraint.terms.as_slice() {
        [term] => Some(Single {
            column: term.0 as usize,
            factor: term.1,
            rhs: constraint.rhs,
        }),
        _ => None,
    }
}

/// A column whose variable is the slack of this constraint.
fn bounded_below(number: u32, single: Single) -> ColumnBounds {
    ColumnBounds {
        lower: Some(number),
        upper: None,
        scale: Scale {
            scale: single.factor,
            shift: single.rhs,
        },
        range: None,
    }
}

fn add_lower(bounds: &mut [ColumnBounds], number: u32, single: Single) -> bool {
    let j = single.column;
    if single.factor > 0 && j < bounds.len() && bounds[j].lower.is_none() {
        bounds[j] = bounded_below(number, single);
        return true;
    }
    false
}

/// An upper bound stands beside a lower one of the same factor that is not above it, or where there
/// is none. The result is whether it stands beside one; None where it is neither.
fn add_upper(bounds: &mut [ColumnBounds], number: u32, single: Single) -> Option<bool> {
    let j = single.column;
    if single.factor > 0 || j >= bounds.len() {
        return None;
    }
    let own = bounds[j];
    if own.lower.is_none() {
        bounds[j] = bounded_below(number, single);
        return Some(false);
    }
    if own.upper.is_some() || own.scale.scale != single.factor.wrapping_neg() {
        return None;
    }
    let range = single.rhs.wrapping_neg().wrapping_sub(own.scale.shift);
    if range < 0 {
        return None;
    }
    bounds[j] = ColumnBounds {
        upper: Some(number),
        range: Some(range),
        ..own
    };
    Some(true)
}

fn no_bounds(alloc: Global, columns: usize) -> Result<Vec<ColumnBounds>, AllocError> {
    let mut bounds = Vec::with_capacity(alloc, columns)?;
    for _ in 0..columns {
        bounds.push(ColumnBounds {
            lower: None,
            upper: None,
            scale: Scale { scale: 1, shift: 0 },
            range: None,
        })?;
    }
    Ok(bounds)
}

fn no_bound_of(alloc: Global, constraints: usize) -> Result<Vec<Option<Bound>>, AllocError> {
    let mut bound_of = Vec::with_capacity(alloc, constraints)?;
    for _ in 0..constraints {
        bound_of.push(None)?;
    }
    Ok(bound_of)
}

fn put_bound(bound_of: &mut [Option<Bound>], k: usize, variable: usize, upper: bool) {
    if k < bound_of.len() {
        bound_of[k] = Some(Bound { variable, upper });
    }
}

fn is_placed(bound_of: &[Option<Bound>], k: usize) -> bool {
    k < bound_of.len() && bound_of[k].is_some()
}

fn find_lower(case: &Case, bounds: &mut [ColumnBounds], bound_of: &mut [Option<Bound>]) {
    for (k, constraint) in case.constraints().iter().enumerate() {
        if let Some(single) = single_of(constraint)
            && let Ok(number) = u32::try_from(k)
            && add_lower(bounds, number, single)
        {
            put_bound(bound_of, k, single.column, false);
        }
    }
}

fn find_upper(case: &Case, bounds: &mut [ColumnBounds], bound_of: &mut [Option<Bound>]) {
    for (k, constraint) in case.constraints().iter().enumerate() {
        if !is_placed(bound_of, k)
            && let Some(single) = single_of(constraint)
            && let Ok(number) = u32::try_from(k)
            && let Some(upper) = add_upper(bounds, number, single)
        {
            put_bound(bound_of, k, single.column, upper);
        }
    }
}

impl Columns {
    /// How many rows a dictionary has: one for each constraint that is no bound of a column, and one
    /// for the cost.
    pub fn rows(&self) -> usize {
        let bounds = self.bound_of.iter().filter(|bound| bound.is_none());
        bounds.count().saturating_add(1)
    }

    /// Those of a case. A column has one lower and one upper bound at most; every other constraint
    /// has a row.
    pub fn of_case(alloc: Global, case: &Case) -> Result<Columns, AllocError> {
        let mut bounds = no_bounds(alloc, case.columns() as usize)?;
        let mut bound_of = no_bound_of(alloc, case.constraints().len())?;
        find_lower(case, bounds.as_mut_slice(), bound_of.as_mut_slice());
        find_upper(case, bounds.as_mut_slice(), bound_of.as_mut_slice());
        Ok(Columns { bounds, bound_of })
    }
}
