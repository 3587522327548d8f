//! Decks that are printed line by line, and that their texts spell them.
#![tactic(auto)]

mod laws;

pub use laws::a_printed_deck_is_spelled;
