//! Why a run stops.
use cuts::{SpentAt, WideAt};
use lpcc_case::{Point, Ray};
use nogoods::{NoGood, Piece};

/// Why a run stops before its tree is whole.
#[derive(Drop)]
pub enum Stop {
    /// The cost falls without end in the piece.
    Unbounded(Piece, Point, Ray),
    /// The walk of the piece comes to a wide dictionary.
    Wide(Piece, WideAt),
    /// The walk of the piece spends its pivots.
    Spent(Piece, SpentAt),
    /// The node of this path would be one too many.
    Nodes(NoGood),
}
