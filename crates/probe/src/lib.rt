//! Questions to a standing dictionary: is there a point that meets all constraints, is tight at some
//! choices and is lower than a limit? What the dictionary finds is tested before it is answered, so
//! an answer is true whatever the dictionary does.
#![tactic(auto)]

mod answer;
mod asking;
mod below;
mod finding;
mod least;
mod tested_cuts;
mod within;

pub use answer::{Answer, Least};
pub use asking::Probe;
pub use below::{is_point_below, is_under};
