//! The command that edits a case by a script, and says what is answered on the way.
#![tactic(auto)]

mod meanings;
mod running;
mod scripts;

pub use running::run_edits;
