//! The instance that is solved: a linear program with complementarity constraints over whole
//! numbers, and what it means for a point to be feasible and for a verdict to be true.
#![tactic(auto)]

mod case;
mod constraint;
mod feasible;
mod fits;
mod form;
mod laws;
mod named;
mod point;
mod sums;
mod value;
mod verdict;

pub use case::Case;
pub use constraint::{Constraint, Kind};
pub use feasible::{is_complementary, is_tight_at, meets, recedes};
pub use fits::is_of;
pub use form::{Form, order_of_forms};
pub use laws::{
    feasible_exactly_in_a_piece, lower_is_irreflexive, lower_is_transitive,
    multiples_meet_the_same, point_for_a_case_means_one, point_is_below_where_lower,
    true_verdicts_are_the_same, value_is_that_of_the_point,
};
pub use lp_base::{MOST_COLUMNS, MOST_CONSTRAINTS, MOST_PAIRS};
pub use named::names_pairs;
pub use point::{Point, Ray};
pub use sums::cost_of;
pub use value::{lower, value_of, value_text};
pub use verdict::Verdict;
