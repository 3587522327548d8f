//! The command that judges a deck with a certificate behind it, over a source and a sink.
#![tactic(auto)]

mod answer;
mod judging;
mod laws;
mod running;

pub use answer::Answer;
pub use judging::{MOST_BYTES, judge, judge_many};
pub use laws::{a_status_tells_the_answer, an_input_has_one_answer, each_cause_is_answered};
pub use running::{verify, verify_many};
