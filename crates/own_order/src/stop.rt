//! Why a search stops.

/// Why a search stops.
#[derive(Clone, Copy, Debug, PartialEq, Eq)]
pub enum Stop {
    /// The clauses bar every piece: the best point is of least cost, and each piece is barred by a
    /// cut. Nothing is claimed of it.
    Refuted,
    /// As many conflicts were met as were allowed. The search can go on.
    Conflicts,
    /// Too many questions had no answer.
    Unknown,
    /// The cost falls without end in a piece, or it seems so.
    Unbounded,
}
