//! Decks in free MPS with the sections OBJSENSE, PAIRS and GROUPS: objective with its sense, rows,
//! columns, bounds, ranges, pairs of quantities of which one must be zero, and groups of quantities of
//! which all but one must be; what they are, and which deck a text spells.
//!
//! The definitions stand in `specs/`: `Spelling`, `Senses` and `Bounds` say which deck lines spell, `Faults`
//! what is wrong with a line behind others, and `Texts` which deck a text spells and which fault is
//! its first. `mps_pairs` reads decks.
#![tactic(auto)]

mod bounds;
mod deck;
mod fault;
mod laws;

pub use bounds::BoundKind;
pub use deck::{Bound, Column, Deck, Entry, GroupLine, Letter, PairLine, Quantity, Row};
pub use fault::{DeckFault, DeckWhy};
pub use laws::{
    decimals_keep_their_value, spelled_by_first_lines, spelled_decks_keep, spelled_once,
    spelled_or_faulty,
};
