//! Tests of runs with many workers.
#![tactic(auto)]

#[cfg(test)]
mod left_tests;
#[cfg(test)]
mod run_tests;
#[cfg(test)]
mod runs;
