//! A search over the pairs in an order of its own: conflict-driven clause learning with a question
//! to the probe at each node. What it learns is not kept: it gives the best point and the cuts that
//! it met, each of which has passed its test.
#![tactic(auto)]

mod against;
mod asking;
mod clauses;
mod conflicts;
mod node;
mod pair_search;
mod stop;
mod trail;

pub use pair_search::PairSearch;
pub use stop::Stop;
