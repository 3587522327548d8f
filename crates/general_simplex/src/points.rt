//! Points and directions, as the constants and the columns of the dictionary show them.

use crate::dictionary::Simplex;
use lp_base::product;
use simplex_numbers::Number;
use simplex_rows::{Ratio, Row, Scale, Variable, against_range, common_multiple};
use std::alloc::{AllocError, Global};
use std::cmp::Ordering;

/// Numbers for the columns of the case over one denominator. Nothing is claimed of them.
#[derive(Drop)]
pub struct Coordinates {
    pub d: i64,
    pub x: Vec<i64>,
}

/// A number over a denominator.
#[derive(Clone, Copy)]
struct Value {
    num: i64,
    den: i64,
}

/// A number over a denominator in lowest terms. None where these do not fit.
fn value_of<N: Number>(num: N, den: N) -> Option<Value> {
    let divisor = num.gcd(den).divisor();
    Some(Value {
        num: num.divided(divisor).narrow()?,
        den: den.divided(divisor).narrow()?,
    })
}

/// The value of a column, by that of its variable, counted from the bound that it is counted from.
fn column_value(scale: Scale, variable: Variable, value: Value) -> Option<Ratio> {
    let own = i128::from(value.num);
    let num = match variable.range {
        Some(range) if variable.reflected => product(range, value.den).wrapping_sub(own),
        _ => own,
    };
    let shift = product(scale.shift, value.den);
    Ratio::of(num.checked_add(shift)?, product(scale.scale, value.den))
}

/// One denominator for all.
fn common_denominator(ratios: &[Ratio]) -> Option<i64> {
    let mut d = 1;
    for ratio in ratios {
        d = common_multiple(d, ratio.den)?;
    }
    Some(d)
}

fn over(ratio: Ratio, d: i64) -> Option<i64> {
    i64::of_wide(
        ratio
            .num
            .checked_mul(i128::from(d).checked_div(ratio.den)?)?,
    )
}

fn coordinates_of(alloc: Global, ratios: &[Ratio]) -> Result<Option<Coordinates>, AllocError> {
    let Some(d) = common_denominator(ratios) else {
        return Ok(None);
    };
    let mut x = Vec::with_capacity(alloc, ratios.len())?;
    for ratio in ratios {
        let Some(number) = over(*ratio, d) else {
            return Ok(None);
        };
        x.push(number)?;
    }
    Ok(Some(Coordinates { d, x }))
}

impl<N: Number> Simplex<N> {
    fn row_at(&self, variable: Variable) -> Option<&Row<N>> {
        if variable.basic {
            self.rows.get(variable.place)
        } else {
            None
        }
    }

    fn value_of_column(&self, j: usize, scale: Scale) -> Option<Ratio> {
        let variable = self.variable(j);
        let value = match self.row_at(variable) {
            Some(row) => value_of(row.constant, row.den)?,
            None => Value { num: 0, den: 1 },
        };
        column_value(scale, variable, value)
    }

    /// The point at which the dictionary stands. None where it does not fit.
    pub fn point(&self, alloc: Global) -> Result<Option<Coordinates>, AllocError> {
        let mut ratios = Vec::with_capacity(alloc, self.scales.len())?;
        for (j, scale) in self.scales.iter().enumerate() {
            let Some(ratio) = self.value_of_column(j, *scale) else {
                return Ok(None);
            };
            ratios.push(ratio)?;
        }
        coordinates_of(alloc, ratios.as_slice())
    }

    /// How far a column goes where the variable of another one rises by 1, or else falls.
    fn slope_of_column(&self, j: usize, scale: Scale, col: usize, rise: bool) -> Option<Ratio> {
        let variable = self.variable(j);
        let value = match self.row_at(variable) {
            Some(row) => value_of(row.entry(col), row.den)?,
            None => Value {
                num: i64::from(!variable.basic && variable.place == col),
                den: 1,
            },
        };
        let num = if rise == variable.reflected {
            value.num.wrapping_neg()
        } else {
            value.num
        };
        Ratio::of(i128::from(num), product(scale.scale, value.den))
    }

    /// The direction in which the variable of the column rises, or else falls, as whole numbers
    /// `x`. None where they do not fit.
    pub fn ray(
        &self,
        alloc: Global,
        col: usize,
        rise: bool,
    ) -> Result<Option<Coordinates>, AllocError> {
        let mut ratios = Vec::with_capacity(alloc, self.scales.len())?;
        for (j, scale) in self.scales.iter().enumerate() {
            let Some(ratio) = self.slope_of_column(j, *scale, col, rise) else {
                return Ok(None);
            };
            ratios.push(ratio)?;
        }
        coordinates_of(alloc, ratios.as_slice())
    }

    /// Whether the dictionary stands where this constraint holds with equality.
    pub fn is_tight(&self, constraint: u32) -> bool {
        let Some(bound) = self.bound(constraint) else {
            return false;
        };
        let variable = self.variable(bound.variable);
        let here = bound.upper == variable.reflected;
        match self.row_at(variable) {
            Some(row) if here => row.constant.is_zero(),
            Some(row) => against_range(row, variable) == Ordering::Equal,
            None => here || variable.range == Some(0),
        }
    }
}
