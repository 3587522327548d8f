//! Pages of items: one writer publishes items of a fixed number of words, and readers read what was
//! published, without locks and in any interleaving of single steps on words. The method is
//! publication by a flag: the words of an item are stored first and its head, a word of its own,
//! last; a reader loads the head first.
#![tactic(auto)]

mod calls;
mod passes;
mod places;
mod rule;
mod steps;

pub use passes::{Page, ReadPass, WritePass};
pub use rule::{Keeps, Look, PageKey, View};
