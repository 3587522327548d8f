//! The words of a cut, in which workers hand cuts to each other.
#![tactic(auto)]

mod check;
mod laws;
mod put;
mod read;

pub use check::are_passing_words;
pub use laws::words_are_of_one_cut;
pub use put::{item_length, to_words};
pub use read::from_words;
