//! A worker of a run: it draws pieces from the desk, solves each or settles it by a cut of another
//! worker, and publishes its own cuts.
#![tactic(auto)]

mod gate;
mod incumbent;
mod locked;
mod noting;
mod piece;
mod publishing;
mod reading;
mod searching;
mod turns;

pub use gate::{Gate, Mark, NoGate};
pub use turns::work;
