//! The texts of linear complementarity problems and of bilevel problems: their one spelling, and
//! reading them exactly, with the first fault of a text that is none.
#![tactic(auto)]

mod bilevel;
mod fault;
mod lcp;
mod limits;
mod lines;
mod making;
mod problem;
mod rows;
mod terms;
mod tokens;
mod words;

pub use bilevel::read_bilevel;
pub use fault::{FrontFault, FrontWhy};
pub use lcp::read_lcp;
pub use problem::{Bilevel, Lcp, Line};
