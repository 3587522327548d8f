//! The command that solves a deck, with one worker or with many.
#![tactic(auto)]

mod running;
mod together;

pub use running::run_solve;
pub use together::run_solve_with;
