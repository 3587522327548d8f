//! What certificates are made of: points and rays by their numbers that are not zero, the choices
//! of a piece, and the lines of a log of which the last one is without choices; and why such a
//! certificate is accepted.
#![tactic(auto)]

mod certs;
mod laws;
mod lines;
mod pieces;
mod points;

pub use certs::{optimal_cert, unbounded_cert};
pub use laws::{
    backed_lines_show_a_best_point, backed_lines_show_that_none_is_feasible,
    points_and_rays_show_unbounded, trimmed_lines_are_backed,
};
pub use lines::lines_of;
pub use pieces::choices_of;
pub use points::{cert_point, terms_of};
