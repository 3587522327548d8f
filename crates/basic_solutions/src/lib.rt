//! What an exact simplex reads off a dictionary at the end of a walk: the multipliers of a row with
//! the choices that they need, the basic point, and the direction of a column.
#![tactic(auto)]

mod blame;
mod common;
mod cuts_of_rows;
mod duals;
mod forms;
mod laws;
mod places;
mod point;
mod ray;
mod reading;

pub use blame::blamed_of;
pub use cuts_of_rows::{lowest_cost_cut, stuck_exchange_cut, stuck_stage_cut};
pub use duals::multipliers;
pub use forms::{nonbasic_forms, nonbasic_forms_after};
pub use laws::direction_recedes;
pub use places::{places_of, share};
pub use point::point_of;
pub use ray::ray_of;
