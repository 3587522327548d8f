//! The row whose variable is to leave: that of the largest violation.

use crate::row::Row;
use crate::variable::{Variable, variable_at};
use simplex_numbers::Number;
use std::cmp::Ordering;

/// How the variable of a row is to move. It is first counted from its other bound where `reflect`
/// is set.
#[derive(Clone, Copy)]
pub struct Repair {
    pub reflect: bool,
    pub rise: bool,
}

/// How the variable is to move that is counted from this bound.
fn here(rise: bool) -> Option<Repair> {
    Some(Repair {
        reflect: false,
        rise,
    })
}

/// How the variable is to move that is counted from its other bound.
fn reflected(rise: bool) -> Option<Repair> {
    Some(Repair {
        reflect: true,
        rise,
    })
}

/// Whether the variable stands below its other bound, at it, or above it.
#[inline(always)]
pub fn against_range<N: Number>(row: &Row<N>, variable: Variable) -> Ordering {
    let Some(range) = variable.range else {
        return Ordering::Less;
    };
    let top = N::of(range).product(row.den);
    let above = N::difference(row.constant.product(N::of(1)), top);
    if N::is_negative_product(above) {
        Ordering::Less
    } else if N::is_zero_product(above) {
        Ordering::Equal
    } else {
        Ordering::Greater
    }
}

#[inline(always)]
fn repair_of_held_there<N: Number>(row: &Row<N>, variable: Variable, slope: N) -> Option<Repair> {
    match against_range(row, variable) {
        Ordering::Greater => return reflected(true),
        Ordering::Less => return reflected(false),
        Ordering::Equal => {},
    }
    if !slope.is_zero() {
        return reflected(slope.is_negative());
    }
    if variable.is_held_here() && !row.constant.is_zero() {
        return here(row.constant.is_negative());
    }
    None
}

/// As `repair_of`, of a variable that stands above the bound that it is counted from.
#[inline(always)]
fn repair_of_above<N: Number>(row: &Row<N>, variable: Variable, slope: N) -> Option<Repair> {
    if variable.is_held_here() {
        return here(false);
    }
    if variable.range.is_none() {
        return None;
    }
    match against_range(row, variable) {
        Ordering::Greater => reflected(true),
        Ordering::Equal if slope.is_negative() => reflected(true),
        _ => None,
    }
}

/// How the variable of a row is to move, if it violates a bound. `slope` is the row's entry at a
/// cost that is not basic, which is to stand a little lower than it does.
#[inline(always)]
fn repair_of<N: Number>(row: &Row<N>, variable: Variable, slope: N) -> Option<Repair> {
    if variable.is_free() {
        return None;
    }
    if variable.is_held_there() {
        return repair_of_held_there(row, variable, slope);
    }
    if row.constant.is_negative() {
        return here(true);
    }
    if !row.constant.is_zero() {
        return repair_of_above(row, variable, slope);
    }
    if slope.is_zero() {
        return None;
    }
    if !slope.is_negative() {
        return here(true);
    }
    if variable.is_held_here() {
        return here(false);
    }
    if variable.range == Some(0) {
        return reflected(true);
    }
    None
}

/// The row whose variable is to leave.
#[derive(Clone, Copy)]
pub struct Leaving {
    pub row: usize,
    pub repair: Repair,
}

/// What rows and columns are chosen by.
#[derive(Clone, Copy)]
pub struct PivotRule {
    /// The variable of the cost.
    pub cost: usize,
    /// Whether there is a limit on the cost.
    pub limited: bool,
    /// The column of the cost, where it is not basic.
    pub cost_column: Option<usize>,
    /// Bland's rule: the variable of the least number.
    pub bland: bool,
}

#[inline(always)]
fn repair_by_rule<N: Number>(
    row: &Row<N>,
    variables: &[Variable],
    rule: PivotRule,
) -> Option<Repair> {
    if row.variable == rule.cost {
        return if rule.limited && !row.constant.is_negative() {
            here(false)
        } else {
            None
        };
    }
    let slope = match rule.cost_column {
        Some(col) => row.entry(col),
        None => N::of(0),
    };
    repair_of(row, variable_at(variables, row.variable), slope)
}

/// 0 where the variable of the row violates no bound, and else more the further it is off.
#[inline(always)]
fn violation_of<N: Number>(row: &Row<N>, variables: &[Variable], rule: PivotRule) -> u64 {
    match repair_by_rule(row, variables, rule) {
        None => 0,
        Some(_) => row.constant.size().thousandths(row.den).saturating_add(1),
    }
}

/// Measures the violation of each row.
pub fn measure_all<N: Number>(
    violations: &mut [u64],
    rows: &[Row<N>],
    variables: &[Variable],
    rule: PivotRule,
) {
    for (i, row) in rows.iter().enumerate() {
        if i < violations.len() {
            violations[i] = violation_of(row, variables, rule);
        }
    }
}

/// Measures the violations of some rows.
pub fn measure<N: Number>(
    violations: &mut [u64],
    rows: &[Row<N>],
    touched: &[usize],
    variables: &[Variable],
    rule: PivotRule,
) {
    for number in touched {
        let i = *number;
        if i < violations.len() && i < rows.len() {
            violations[i] = violation_of(&rows[i], variables, rule);
        }
    }
}

/// The variable of a row, and past the last one none.
#[inline(always)]
fn basic_at<N: Number>(rows: &[Row<N>], i: usize) -> usize {
    if i < rows.len() {
        rows[i].variable
    } else {
        usize::MAX
    }
}

/// The row of the largest violation, and of these that of the least variable.
fn most_violated<N: Number>(violations: &[u64], rows: &[Row<N>], bland: bool) -> Option<usize> {
    let mut best: Option<(u64, usize)> = None;
    for (i, violation) in violations.iter().enumerate() {
        if *violation == 0 {
            continue;
        }
        let key = if bland { 1 } else { *violation };
        let better = match best {
            None => true,
            Some((most, first)) => {
                key > most || (key == most && basic_at(rows, i) < basic_at(rows, first))
            },
        };
        if better {
            best = Some((key, i));
        }
    }
    best.map(|(_, i)| i)
}

/// The row of the largest violation, as they were measured. None where no bound is violated.
pub fn leaving_row<N: Number>(
    violations: &[u64],
    rows: &[Row<N>],
    variables: &[Variable],
    rule: PivotRule,
) -> Option<Leaving> {
    let row = most_violated(violations, rows, rule.bland)?;
    let repair = repair_by_rule(rows.get(row)?, variables, rule)?;
    Some(Leaving { row, repair })
}
