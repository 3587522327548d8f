//! What the commands have in common: the case of the deck that a source gives, why there is none,
//! and writing an answer.
#![tactic(auto)]

mod extent;
mod laws;
mod reading;
mod refusal;
mod writing;

pub use extent::Extent;
pub use laws::{
    a_deck_alone_is_read_once, an_input_begins_with_one_case, spelled_cases_are_cases,
    verdicts_are_true_of_the_bytes,
};
pub use reading::{MOST_DECK_BYTES, case_in, read_case, take};
pub use refusal::Refusal;
pub use writing::{Status, WRITE_FAULT, give, give_no_memory, give_refusal};
