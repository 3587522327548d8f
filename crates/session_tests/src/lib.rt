//! Tests of edit sessions, and of scripts of edits.
#![tactic(auto)]

#[cfg(test)]
mod script_tests;
#[cfg(test)]
mod session_tests;
