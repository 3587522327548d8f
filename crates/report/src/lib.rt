//! What is written of a run: the text and the status of each way in which it ends.
#![tactic(auto)]

mod ending;
mod forms;
mod relaxation;
mod style;

pub use ending::{status_of, text_of};
pub use forms::{form_text, push_forms};
pub use relaxation::Relaxation;
pub use style::Style;
