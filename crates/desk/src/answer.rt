//! What a draw answers.
use play::Ticket;

/// The answer of a draw.
#[derive(Drop)]
pub enum Draw {
    /// A piece to be solved, by its ticket.
    Piece(Ticket),
    /// None yet: pieces are in flight, and every other one is barred or set aside, or as many were
    /// drawn as may be.
    Pause,
    /// None any more: the desk has an ending.
    Done,
    /// None any more: the desk was abandoned and has not concluded.
    Left,
}
