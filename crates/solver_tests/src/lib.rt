//! Tests of the solver's layers.
#![tactic(auto)]

#[cfg(test)]
mod cases;
#[cfg(test)]
mod dictionary_tests;
#[cfg(test)]
mod shrink_tests;
#[cfg(test)]
mod tree_tests;
