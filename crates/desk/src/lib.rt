//! The desk: the shared state of a run with many workers. Round the desk part lies the shelf, on
//! which the workers' pages stand. The desk is held behind a lock.
#![tactic(auto)]

mod absorbing;
mod answer;
mod desk;
mod tickets;

pub use answer::Draw;
pub use desk::Desk;
