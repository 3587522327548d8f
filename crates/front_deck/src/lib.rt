//! That the printed decks of problems spell the decks, and so mean their problems.
#![tactic(auto)]

mod laws;

pub use laws::{
    printed_bilevel_decks_mean_their_problems, printed_decks_are_spelled,
    printed_decks_are_those_of_their_problems, printed_lcp_decks_mean_their_problems,
};
