//! Acceptance of certificates of either form, and why an accepted one shows its verdict. What cuts
//! were tested before is told by marks, so that they can be tested elsewhere.
#![tactic(auto)]

pub mod accept2;
pub mod earlier;
mod laws2;
pub mod line2;
pub mod lines2;
mod merge;

pub use accept2::check_any;
pub use laws2::{
    acceptance_is_a_function, accepted_verdicts_are_true, whole_certificates_are_accepted,
};
