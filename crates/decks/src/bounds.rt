//! The kinds of bounds.

/// The kind of a line of BOUNDS.
#[derive(Clone, Copy, Debug, PartialEq, Eq)]
pub enum BoundKind {
    /// Sets the upper bound.
    Up,
    /// Sets the lower bound.
    Lo,
    /// Sets both bounds.
    Fx,
    /// Removes both bounds.
    Fr,
    /// Removes the lower bound.
    Mi,
    /// Removes the upper bound.
    Pl,
}
