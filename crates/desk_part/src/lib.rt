//! The desk part of a run: which piece is drawn next, what a settled piece changes, when a verdict
//! is reached, and how the run ends.
#![tactic(auto)]

mod absorbing;
mod answer;
mod closing;
mod desk_part;
mod laws;
mod lines;
mod look;
mod points;
mod recorded;
mod settle;
mod stuck;

pub use answer::Draw;
pub use desk_part::DeskPart;
pub use laws::a_part_is_over_where_it_has_an_ending;
pub use recorded::RecordedPart;
