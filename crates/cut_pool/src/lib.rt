//! The pool: each worker publishes its cuts in a lane of pages, and reads the lanes of the others
//! without locks. Lanes grow: a shelf opens pages and hands out the passes to them.
#![tactic(auto)]

mod cases;
mod counts;
mod handing;
mod held;
mod keeps;
mod lane;
mod opened;
mod opening;
mod reach;
mod rooms;
mod shelf;

pub use cases::same_case;
pub use keeps::CutKeeps;
pub use reach::Reach;
pub use shelf::Shelf;
