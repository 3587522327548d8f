//! What determines a generated deck, and the range of the sizes.
ghost use Rattle.std.specs.Prelude.{◌↔◌, IsTrue};
ghost use Rattle.deck_gen.specs.Generator.{IsInRange};

use lp_base::{MOST_COLUMNS, MOST_ENTRIES, MOST_PAIRS};

/// What determines a generated deck: the seed of the draws, and how many columns, rows and pairs
/// there are.
#[derive(Clone, Copy)]
pub struct Sizes {
    pub seed: u64,
    pub columns: u32,
    pub rows: u32,
    pub pairs: u32,
}

/// As many rows as a generated deck may have.
pub const MOST_GENERATED_ROWS: u64 = 1000;

/// Whether a deck of these sizes is generated: 1 to 1,000 columns and rows, at most 512 pairs and
/// no more than half of the columns, and at most 200,000 entries, the costs among them. It takes
/// no memory.
pub fn in_range(columns: u64, rows: u64, pairs: u64) -> bool
    ensures { IsTrue result ↔ IsInRange columns rows pairs }
{
    1 <= columns
        && columns <= MOST_COLUMNS as u64
        && 1 <= rows
        && rows <= MOST_GENERATED_ROWS
        && pairs <= MOST_PAIRS as u64
        && 2 * pairs <= columns
        && rows * columns + columns <= MOST_ENTRIES as u64
}
