//! Verdicts on a case.
use lp_nums::Frac;

/// What is claimed of a case.
#[derive(Clone, Copy, Debug, PartialEq, Eq)]
pub enum Verdict {
    /// A feasible point has this value, with scale and offset, and none is lower.
    Optimal(Frac),
    /// No point is feasible.
    Infeasible,
    /// Below each number a feasible point has its value.
    Unbounded,
}
