//! The command that solves the relaxation of a deck: the deck without its pairs.
#![tactic(auto)]

mod running;
mod solving;

pub use running::relax;
pub use solving::relaxation_of;
