//! Edits of a case: which may be made, the case behind one, and which cuts outlast it.
#![tactic(auto)]

mod edit;
mod edited;
mod judged;
mod kept;
mod kept_cuts;

pub use edit::{Edit, EditFault};
pub use kept_cuts::KeptCuts;
