//! Choices of a zero member for each pair, no-goods and pieces.
#![tactic(auto)]

mod choice;
mod no_good;
mod piece;

pub use choice::{Choice, Side};
pub use no_good::NoGood;
pub use piece::{Piece, barred_by_each_choice, bars, order_is_irreflexive, order_is_transitive};
