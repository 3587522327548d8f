//! The general simplex method (Dutertre and de Moura, "A fast linear-arithmetic solver for
//! DPLL(T)", 2006): one standing dictionary in whole numbers, in which bounds, chosen sides and the
//! limit on the cost are marks, so that a question goes on from where the last one ended. Nothing
//! that it finds is claimed to be true: multipliers and points are tested by who asked. What is
//! claimed is that every call is safe and returns.
#![tactic(auto)]

mod build;
mod check;
mod columns;
mod dictionary;
mod exchange;
mod multipliers;
mod optimise;
mod points;

pub use check::Feasibility;
pub use dictionary::Simplex;
pub use multipliers::Multipliers;
pub use optimise::Optimum;
pub use points::Coordinates;
