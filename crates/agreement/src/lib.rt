//! Why the checker says yes to what the solver writes.
#![tactic(auto)]

mod laws;

pub use laws::{solutions_are_accepted, solutions_are_answered_yes};
