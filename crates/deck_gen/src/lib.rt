//! Decks made from a number, as test inputs of any size: sparse covering rows over columns with
//! positive costs, the first columns in pairs.
#![tactic(auto)]

mod draws;
mod lines;
mod sections;
mod sizes;

pub use sections::deck;
pub use sizes::in_range;
