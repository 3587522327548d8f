//! A gate, through which tests see and hold workers.
use nogoods::Piece;

/// What a worker has just done with a piece.
#[derive(Clone, Copy, Debug, Drop, PartialEq, Eq)]
pub enum Mark {
    /// It was given the piece.
    Drawn,
    /// It solved the piece, and published the cut.
    Published,
    /// It found a cut of another worker that bars the piece, and did not solve it.
    Skipped,
    /// It settled the piece.
    Settled,
}

/// Through it a test sees workers, and may hold them.
pub trait Gate {
    /// The worker of this number passes with this piece.
    fn pass(&self, worker: u32, mark: Mark, piece: &Piece);
}

/// The gate that does nothing.
pub struct NoGate;

impl Gate for NoGate {
    fn pass(&self, _worker: u32, _mark: Mark, _piece: &Piece) {}
}
