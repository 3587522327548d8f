//! The exact simplex method: the least cost of a linear program over whole numbers, with a cut that
//! proves it, or a direction in which it falls without end, or why there is no answer.
#![tactic(auto)]

mod answer;
mod ends;
mod enter;
mod fix;
mod leave;
mod marks;
mod next;
mod simplex;
mod stages;
mod tie;
mod values;
mod walk;

pub use answer::LpAnswer;
pub use simplex::solve;
