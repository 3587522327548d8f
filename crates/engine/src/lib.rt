//! A whole run of the solver: pieces are drawn from the desk, solved, their cuts shrunk and settled,
//! until the desk is done.
#![tactic(auto)]

mod alone;
mod laws;
mod turn;

pub use alone::solve_alone;
pub use laws::solved_verdicts_are_shown;
