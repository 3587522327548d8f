//! The certificate of a tree that holds, and that of a point and a ray along which the cost falls
//! without end.
#![tactic(auto)]

mod certificates;
mod refuting;
mod resolving;

pub use certificates::{direction_cert, tree_cert};
