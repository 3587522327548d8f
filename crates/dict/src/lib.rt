//! The dictionary of the exact simplex method: each row writes one form of a case as a combination
//! of the nonbasic forms, in sparse form over its own denominator.
#![tactic(auto)]

mod dictionary;
mod exchange;
mod fault;
pub mod laws;
mod merge;
mod numbers;
mod pivot;
mod reduce;
mod row;
mod start;

pub use dictionary::Dict;
pub use fault::{PivotFault, Wide};
