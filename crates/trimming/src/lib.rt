//! Trimming: a log with the steps alone that its first empty step reaches through hints.
#![tactic(auto)]

mod build;
mod reach;

pub use build::trim;
pub use reach::reached_steps;
