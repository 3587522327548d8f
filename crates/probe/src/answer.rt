//! What the probe answers.

use cuts::Cut as TrueCut;
use lpcc_case::Point as TruePoint;

/// What is known of the points that are tight at some choices and lower than a limit.
#[derive(Drop)]
pub enum Answer {
    /// There is none, by this cut.
    Cut(TrueCut),
    /// This is one.
    Point(TruePoint),
    /// The dictionary could not tell.
    Unknown,
}

/// What is known of the least cost of these points.
#[derive(Drop)]
pub enum Least {
    /// There is none, by this cut.
    Nothing(TrueCut),
    /// A point of least cost, and a cut whose bound is this cost.
    Best(TruePoint, TrueCut),
    /// The dictionary could not tell, or the cost falls without end.
    Unknown,
}
