//! The column whose variable is to enter: one with few rows, by which the cost would rise little.

use crate::leaving::PivotRule;
use crate::pattern::Pattern;
use crate::variable::{Variable, variable_at};
use simplex_numbers::Number;

/// Whether the variable may move up, or else down.
#[inline(always)]
fn may_move(variable: Variable, is_cost: bool, limited: bool, up: bool) -> bool {
    if is_cost {
        return !(limited && up);
    }
    if variable.is_free() {
        return true;
    }
    up && !variable.is_held_here()
}

/// As much as the cost may rise, in thousandths, where that is compared with rows.
const HIGHEST_PRICE: u64 = 1 << 50;

/// 1 where the cost falls or stays as the variable of the column enters, and else by how much it
/// would rise against the row's variable, in thousandths and two more.
#[inline(always)]
fn price_of<N: Number>(costs: &[N], j: usize, entry: N) -> u64 {
    if j >= costs.len() || costs[j].is_zero() || costs[j].is_negative() {
        return 1;
    }
    costs[j]
        .thousandths(entry.size())
        .min(HIGHEST_PRICE)
        .wrapping_add(2)
}

/// In how many rows a column is not zero, and 0 where its variable is free, so that it comes first.
#[inline(always)]
fn weight_of(variable: Variable, is_cost: bool, count: u64, bland: bool) -> u64 {
    if bland || (variable.is_free() && !is_cost) {
        0
    } else {
        count.wrapping_add(1)
    }
}

/// The column by which the variable of a row with these entries can rise, or else fall: of those
/// whose variable may move so, the one with the least product of its rows and its price, and of
/// these that of the least variable. `costs` are the entries of the cost's row, where there is
/// another one; else each price is 1.
pub fn entering_column<N: Number>(
    entries: &[N],
    costs: &[N],
    nonbasic: &[usize],
    variables: &[Variable],
    pattern: &Pattern,
    rule: PivotRule,
    rise: bool,
) -> Option<usize> {
    let mut best: Option<(u64, usize, usize)> = None;
    for (j, entry) in entries.iter().enumerate() {
        if entry.is_zero() || j >= nonbasic.len() {
            continue;
        }
        let number = nonbasic[j];
        let variable = variable_at(variables, number);
        let up = entry.is_negative() != rise;
        if !may_move(variable, number == rule.cost, rule.limited, up) {
            continue;
        }
        let weight = weight_of(variable, number == rule.cost, pattern.count(j), rule.bland);
        let key = weight.saturating_mul(price_of(costs, j, *entry));
        let better = match best {
            None => true,
            Some((least, first, _)) => key < least || (key == least && number < first),
        };
        if better {
            best = Some((key, number, j));
        }
    }
    best.map(|(_, _, j)| j)
}
