//! How much of an input a deck is.

/// What may stand behind a deck.
#[derive(Clone, Copy, Debug, PartialEq, Eq)]
pub enum Extent {
    /// Blank lines and comments alone.
    Alone,
    /// Anything: the deck is the first part of the input.
    Prefix,
}
