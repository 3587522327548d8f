//! Reading decks in free MPS with the sections OBJSENSE, PAIRS and GROUPS. `decks` says which deck a text spells, and which
//! fault is its first.
#![tactic(auto)]

mod after;
mod groups;
mod pairs;
mod read;
mod sections;
mod senses;
mod tables;

pub use after::nothing_after;
pub use decks::{
    Bound, Column, Deck, DeckFault, DeckWhy, Entry, GroupLine, Letter, PairLine, Quantity, Row,
    spelled_by_first_lines, spelled_decks_keep, spelled_once, spelled_or_faulty,
};
pub use read::read_deck;
