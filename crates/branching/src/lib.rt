//! The command that solves a deck by a search by branching.
#![tactic(auto)]

mod endings;
mod running;
mod texts;

pub use running::run_tree;
