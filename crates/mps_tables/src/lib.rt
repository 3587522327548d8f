//! The tables of a reader of decks in free MPS with a section PAIRS. Each grows with the lines of its
//! section: it parses the fields of a line, and then is the table of the lines with that one, or it
//! names the line's fault. `decks` says what lines spell and which fault a line has.
#![tactic(auto)]

mod bounds;
mod columns;
mod fault;
mod names;
mod numbers;
mod row_values;
mod rows;

pub use bounds::BoundTable;
pub use columns::ColumnTable;
pub use fault::Fault;
pub use names::{NameMap, Names};
pub use row_values::RowValueTable;
pub use rows::{RowState, RowTable, is_n};
