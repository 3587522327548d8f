//! An edit session: a case that is edited, the cuts that are kept for it, and what is answered for
//! the present case.
#![tactic(auto)]

mod answering;
mod laws;
mod session;
mod taking;
mod turn;

pub use laws::{no_drawn_piece_is_barred_by_a_kept_ray_cut, runs_over_one_case_agree};
pub use session::Session;
