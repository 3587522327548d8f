//! Decks of linear complementarity problems and of bilevel problems, by the conditions of Karush,
//! Kuhn and Tucker.
#![tactic(auto)]

mod bilevel;
mod laws;
mod lcp;
mod lines;
mod parts;
mod points;

pub use bilevel::bilevel_deck;
pub use front_text::{Bilevel, FrontFault, FrontWhy, Lcp, Line, read_bilevel, read_lcp};
pub use laws::{
    a_deck_is_met_by_the_solutions, a_deck_is_met_with_multipliers, y_with_multipliers_is_least,
};
pub use lcp::lcp_deck;
pub use parts::coefficient_at;
pub use points::back;
