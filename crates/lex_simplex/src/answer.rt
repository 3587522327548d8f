//! Answers of a solve.
use cuts::{Cut, SpentAt, WideAt};
use lpcc_case::{Point, Ray};

/// What solving a case with tight choices answers.
#[derive(Drop)]
pub enum LpAnswer {
    /// No point meets the constraints with the choices tight, as the ray cut shows.
    Infeasible(Cut),
    /// A point of least cost, and a point cut whose bound is this cost.
    Optimum(Point, Cut),
    /// A point, and a direction in which the cost falls without end.
    Unbounded(Point, Ray),
    /// The next step of the walk leads to a number that is not narrow.
    Wide(WideAt),
    /// A stage of the walk has made as many pivots as it may, and another one could follow.
    Spent(SpentAt),
}
