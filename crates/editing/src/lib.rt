//! A deck with a script of edits behind it: how both are read from a source, and the texts of their
//! refusals.
#![tactic(auto)]

mod laws;
mod reading;
mod refusal;

pub use laws::edits_are_read_once;
pub use reading::read_edits;
pub use refusal::{EditRefusal, EditWhy, give_edit_refusal};
