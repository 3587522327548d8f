//! What the program `lpcc` does: words, a source, a sink, and one answer.
#![tactic(auto)]

mod commands;
mod dispatch;
mod running;
mod settings;

pub use running::{run, run_alone, run_called};
