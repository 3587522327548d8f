//! Tests of pages, of the words of cuts, of the pool and of the best.
#![tactic(auto)]

#[cfg(test)]
mod best_tests;
#[cfg(test)]
mod lane_tests;
#[cfg(test)]
mod page_tests;
mod small;
#[cfg(test)]
mod word_tests;

pub use small::{CUT, small_case};
