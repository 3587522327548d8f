//! Rows of a simplex dictionary in whole numbers, the variables that they stand for, and which of
//! them leave and enter. Nothing is claimed of a row: what is read from one is tested by who uses
//! it. So sums and products of the fast operations wrap, and a kept magnitude says beforehand
//! whether they fit. What is claimed is that every call is safe and returns.
#![tactic(auto)]

mod blocking;
mod entering;
mod leaving;
mod pattern;
mod ratio;
mod row;
mod shift;
mod variable;
mod words;

pub use blocking::{Blocking, ratio_test};
pub use entering::entering_column;
pub use leaving::{Leaving, PivotRule, against_range, leaving_row, measure, measure_all};
pub use pattern::Pattern;
pub use ratio::{Ratio, common_multiple};
pub use row::{PivotRow, Row};
pub use shift::Limit;
pub use variable::{Bound, Scale, Variable, variable_at};
