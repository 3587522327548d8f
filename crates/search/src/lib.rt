//! The search for the first piece that no step of a log bars.
#![tactic(auto)]

mod found;
mod index;
mod kept;
mod plan;
mod prefix;
mod propagation;
mod refutation;
mod resolve;
mod walk;

pub use found::{Found, next, same_pieces_are_found};
pub use kept::{Search, search_outlives_additions};
pub use piece_sets::PieceSet;
