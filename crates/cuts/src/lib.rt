//! Cuts with their multipliers, the exact test of a cut, and why a cut that passes is true.
#![tactic(auto)]

mod check;
mod cut;
mod places;
mod reason;
mod signs;
mod sums;
mod truth;

pub use check::{check_cut, check_point, check_ray, point_bound};
pub use cut::{Cut, CutFault};
pub use reason::{Reason, SpentAt, WideAt};
pub use signs::has_signs;
pub use sums::{is_multiple_of_cost, right_sum};
pub use truth::{
    active_cut_excludes_nothing_lower, passed_cut_bars_nothing_lower, passed_cut_is_true,
    true_ray_bars_only_empty_pieces,
};
