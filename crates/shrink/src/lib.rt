//! Cuts without the choices that they do not need, with a reason for each choice that stays.
#![tactic(auto)]

mod found;
mod known;
mod probing;
mod shrinking;
mod shrunk;
mod sides;
mod trial;
mod trying;

pub use known::KnownPoints;
pub use probing::shrink_by_probe;
pub use shrinking::{shrink, shrink_with, shrink_with_probe};
pub use shrunk::Shrunk;
