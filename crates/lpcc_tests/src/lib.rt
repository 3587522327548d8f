//! Tests of the runs of the program `lpcc`.
#![tactic(auto)]

#[cfg(test)]
mod tests;
