//! Fractions in lowest terms, decimal texts, the greatest common divisor and the exact order of
//! quotients. No call takes memory.
#![tactic(auto)]

mod decimals;
mod divisors;
mod form;
mod fractions;
mod laws;
mod order;
mod scan;
mod text;

pub use decimals::{NumberFault, read_decimal};
pub use divisors::gcd;
pub use fractions::Frac;
pub use laws::{lowest_terms_are_unique, reducing_keeps_the_value};
pub use order::compare;
