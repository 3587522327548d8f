//! Tests of the search: rows known from outside, and random logs against all pieces.
#![tactic(auto)]

mod logs;
#[cfg(test)]
mod tests;

pub use logs::{Answer, find, is_barred, number_of, piece_of};
