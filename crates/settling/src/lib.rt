//! How a drawn piece is settled, and what is known of the case meanwhile.
#![tactic(auto)]

mod copies;
mod knowledge;
mod outcome;
mod searching;

pub use knowledge::{Knowledge, PLAIN_PIECES};
pub use outcome::outcome_of;
