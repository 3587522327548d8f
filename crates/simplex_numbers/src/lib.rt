//! Whole numbers of rows of a simplex dictionary, in two widths: 64 bits with products in 128, and
//! 128 bits with products in 256. Sums and products wrap; who adds and multiplies has tests of what
//! fits. Nothing is claimed of the results but that every call is safe and returns.
#![tactic(auto)]

mod divisor;
mod gcd;
mod long;
mod narrow;
mod number;
mod wide;

pub use gcd::wide_gcd;
pub use number::Number;
