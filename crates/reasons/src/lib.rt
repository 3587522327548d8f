//! When a reason for keeping a choice of a cut is true, and when a cut is active.
#![tactic(auto)]

mod active;
mod laws;

pub use active::{is_active, is_bound_for};
pub use laws::no_cut_does_without_a_needed_choice;
