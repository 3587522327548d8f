//! Rows, entries and pairs with whole numbers.
ghost use Rattle.std.specs.Prelude.{◌≡◌, ◌++◌, ◌∷◌, [], OnOk};
ghost use Rattle.decks.specs.Bounds.{default_column};
ghost use Rattle.kkt_front.specs.Decks.{entry, entry_if, listed, pair};

use decks::{Bound, Column, Entry, PairLine, Quantity};
use lp_base::Sequence;
use lp_nums::Frac;
use std::alloc::AllocError;

/// Adds n columns with the lower bound 0.
pub fn push_default_columns(columns: &mut Sequence<Column>, n: u32) -> Result<(), AllocError>
    ensures { OnOk result (columns.new ≡ columns.old ++ listed (λ j. default_column) n) }
{
    for _ in 0..n {
        columns.push(Column {
            lower: Bound {
                value: Some(Frac::whole(0)),
                line: 0,
            },
            upper: Bound {
                value: None,
                line: 0,
            },
            fixed: false,
        })?;
    }
    Ok(())
}

/// The row or the column is 0.
pub fn pair(row: u32, column: u32) -> PairLine
    ensures { result ≡ pair row column }
{
    PairLine {
        a: Quantity::Row(row),
        b: Quantity::Col(column),
    }
}

/// Adds an entry.
pub fn push_entry(
    entries: &mut Sequence<Entry>,
    column: u32,
    row: u32,
    value: i64,
) -> Result<(), AllocError>
    ensures { OnOk result (entries.new ≡ entries.old ++ entry column row value ∷ []) }
{
    entries.push(Entry {
        column,
        row,
        value: Frac::whole(i128::from(value)),
    })
}

/// Adds an entry that is not zero.
pub fn push_entry_if(
    entries: &mut Sequence<Entry>,
    column: u32,
    row: u32,
    value: i64,
) -> Result<(), AllocError>
    ensures { OnOk result (entries.new ≡ entries.old ++ entry_if column row value) }
{
    if value == 0 {
        return Ok(());
    }
    push_entry(entries, column, row, value)
}
