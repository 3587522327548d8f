//! Tests of the probe, of shrinking with it, and of the search over the pairs: what no clause says.
#![tactic(auto)]

#[cfg(test)]
mod search_tests;
