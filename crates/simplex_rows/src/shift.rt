//! Rows whose variable is counted from another limit.

use crate::Row;
use crate::ratio::{Ratio, divisor_of};
use simplex_numbers::Number;

/// A limit on the cost: `z / d` with `d` above 0.
#[derive(Clone, Copy)]
pub struct Limit {
    pub z: i128,
    pub d: i64,
}

/// `from - to`. None where a number does not fit.
fn difference(from: Limit, to: Limit) -> Option<Ratio> {
    let first = i128::from(from.d);
    let second = i128::from(to.d);
    let den = first
        .checked_div(divisor_of(first, second)?)?
        .checked_mul(second)?;
    let up = from.z.checked_mul(den.checked_div(first)?)?;
    let down = to.z.checked_mul(den.checked_div(second)?)?;
    Ratio::of(up.checked_sub(down)?, den)
}

impl<N: Number> Row<N> {
    /// Counts the row's variable from another limit. None where a number does not fit: then nothing
    /// has changed.
    pub fn shift(&mut self, from: Limit, to: Limit) -> Option<()> {
        let by = difference(from, to)?;
        let old = self.den.widen();
        let den = old
            .checked_div(divisor_of(old, by.den)?)?
            .checked_mul(by.den)?;
        let factor = den.checked_div(old)?;
        let constant = self.constant.widen().checked_mul(factor)?;
        let more = by.num.checked_mul(den.checked_div(by.den)?)?;
        let constant = N::of_wide(constant.checked_add(more)?)?;
        let den = N::of_wide(den)?;
        self.multiply(N::of_wide(factor)?)?;
        self.constant = constant;
        self.den = den;
        self.reduce();
        Some(())
    }
}
