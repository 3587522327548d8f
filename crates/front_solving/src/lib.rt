//! The commands that solve a linear complementarity problem or a bilevel problem by its deck.
#![tactic(auto)]

mod endings;
mod points;
mod running;

pub use running::{solve_bilevel, solve_lcp};
