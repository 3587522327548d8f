//! Lines, heads and fields of a deck text.
#![tactic(auto)]

mod kinds;
mod laws;
mod line;
mod places;
mod split;

pub use kinds::is_passed;
pub use laws::fields_are_slices;
pub use line::{Line, LineKind, Section, SplitLine, line_of, lines};
pub use split::{FIRST_FIELDS, content_of, count_fields, first_field, first_piece};
