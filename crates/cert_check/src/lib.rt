//! Acceptance of certificates, and why an accepted one shows its verdict. The tests of single lines
//! serve other forms too.
#![tactic(auto)]

pub mod accept;
mod laws;
pub mod line;
mod lines;
pub mod point_line;

pub use accept::{CheckFault, NoWhy, check};
pub use laws::{
    acceptance_is_a_function, accepted_verdicts_are_true, passed_lines_bar_nothing_lower,
};
pub use lpcc_case::Verdict;
