//! A whole run of the solver with many workers, each in a thread of its own.
#![tactic(auto)]

mod ended;
mod opening;
mod solve;
mod threads;

pub use solve::solve_with;
