//! Sets of pieces in the order of pieces, looked up by halving.
#![tactic(auto)]

mod piece_set;

pub use piece_set::PieceSet;
