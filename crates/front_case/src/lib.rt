//! The decks of linear complementarity problems and of bilevel problems as values, and their cases.
#![tactic(auto)]

mod bilevel;
mod cases;
mod laws;
mod lcp;
mod parts;

pub use bilevel::bilevel_as_deck;
pub use cases::{bilevel_case, lcp_case};
pub use laws::{problems_have_cases, problems_have_decks};
pub use lcp::lcp_as_deck;
