//! The machine of a run: its state, its events, which of them are lawful and what each changes, as
//! definitions and as values; the records of a run and their endings; and why a verdict is true and its certificate
//! accepted.
#![tactic(auto)]

mod desk_state;
mod ending;
mod event;
mod fits;
mod laws;
mod outcome;
mod outer_state;
mod piece_choices;
mod points;
mod same;
mod settlement;
mod state;
mod tickets;
mod workers;

pub use ending::Ending;
pub use event::{Aside, Direction, Event, Lawful, Options, ShrinkMode, Ticket, VerdictKind};
pub use laws::{
    an_ending_is_unique, best_and_history_fall, certificates_are_accepted,
    concluded_verdicts_are_true, lawful_events_keep_the_truth, pieces_last, taken_events_lead,
};
pub use outcome::{Cause, Outcome};
pub use piece_choices::choices_of;
pub use points::{is_candidate, lowered};
pub use state::State;
pub use workers::Workers;
