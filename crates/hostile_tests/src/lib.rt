//! Tests of each command on decks that are refused, and on reads and writes that fail.
#![tactic(auto)]

#[cfg(test)]
mod commands;
#[cfg(test)]
mod deck_tests;
#[cfg(test)]
mod end_tests;
#[cfg(test)]
mod group_tests;
