//! The lexicographic order of values with parts, and how many choices of k of n things there are.
#![tactic(auto)]

pub mod laws;
