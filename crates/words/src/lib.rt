//! The words behind the program's name, and the command that they are.
#![tactic(auto)]

mod command;
mod numbers;
mod rules;
mod taking;

pub use command::{
    Command, Draft, EditSettings, Form, MOST_WORKERS, Settings, TreeSettings, USUAL_NODES,
    USUAL_PIECES, USUAL_PIVOTS,
};
pub use numbers::MOST;
pub use taking::command_of;
