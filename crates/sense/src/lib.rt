//! Whether an objective is to be least or greatest.
#![tactic(auto)]

mod objective;

pub use objective::Sense;
