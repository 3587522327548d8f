//! The limits of decks, cases and certificates, and how wide the numbers of each may be. Each stands
//! here alone; definitions and code cite it by its name.

/// As many columns as a deck or a case may have.
pub const MOST_COLUMNS: usize = 1000;

/// As many rows as a deck may have, other than N rows.
pub const MOST_ROWS: usize = 2000;

/// As many constraints as a case may have.
pub const MOST_CONSTRAINTS: usize = 2000;

/// As many entries as a deck may have, those of dropped rows among them.
pub const MOST_ENTRIES: usize = 200_000;

/// As many pairs as a deck or a case may have.
pub const MOST_PAIRS: usize = 512;

/// As large in size as a whole number of a case may be, 2^52. A number of at most this size fits a
/// case.
pub const LARGEST_OF_CASE: u128 = 4_503_599_627_370_496;

/// As large in size as a number of a point, of a row or of a multiplier may be, 2^63 - 1. A number of
/// at most this size is narrow.
pub const LARGEST_NARROW: u128 = 9_223_372_036_854_775_807;

/// As large as a number that one machine word counts may be, 2^64 - 1.
pub const LARGEST_WORD: u128 = 18_446_744_073_709_551_615;

/// A bound of at least this size is no bound, 10^20.
pub const NO_BOUND_FROM: u128 = 100_000_000_000_000_000_000;
