//! The text of a script of edits: its one spelling, and reading it exactly, with the first fault of a
//! text that is none.
#![tactic(auto)]

mod commands;
mod fault;
mod laws;
mod read;
mod script;
mod words;

pub use fault::{ScriptFault, ScriptWhy};
pub use laws::{
    a_text_has_one_first_fault, a_text_spells_a_script_or_fails, a_text_spells_one_script,
    what_is_spelled_does_not_fail,
};
pub use read::read_script;
pub use script::{Command, Relation, Script};
