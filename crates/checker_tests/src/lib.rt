//! Tests of the checker, from the text of a deck to the answer, and of what it is built of.
#![tactic(auto)]

#[cfg(test)]
mod case_tests;
#[cfg(test)]
mod certificate_tests;
#[cfg(test)]
mod command_tests;
#[cfg(test)]
mod deck_tests;
#[cfg(test)]
mod form2_tests;
#[cfg(test)]
mod gen_tests;
#[cfg(test)]
mod group_tests;
#[cfg(test)]
mod io_tests;
#[cfg(test)]
mod layer_tests;
#[cfg(test)]
mod number_tests;
pub mod texts;
