//! Why a choice of a cut is kept, and where a walk of the simplex method ends without an answer.
use lp_base::Sequence;
use lpcc_case::{Form, Point, Ray};

/// Where the simplex method stops since its next step leads to a wide dictionary, one with a
/// number that is not narrow.
#[derive(Drop)]
pub struct WideAt {
    /// The number of exchanges and pivots that were made before that step.
    pub pivots: u128,
    /// The nonbasic forms of the wide dictionary, in the order of forms.
    pub forms: Sequence<Form>,
}

/// Where the simplex method stops since a stage has made as many pivots as it may, and another
/// one could follow.
#[derive(Clone, Copy, Debug, PartialEq, Eq)]
pub struct SpentAt {
    /// The form that the stage raises or lowers: a constraint, or the cost in the last stage.
    pub stage: Form,
    /// The number of pivots that the stage has made.
    pub pivots: u64,
}

/// Why a choice of a cut cannot be dropped, told of the system of all constraints and the cut's
/// other choices.
pub enum Reason {
    /// A point of the system, lower than the limit where there is one.
    Below(Point),
    /// A point of the system, and a direction in which the cost falls without end.
    Unbounded(Point, Ray),
    /// The walk of the system ends at a wide dictionary.
    Wide(WideAt),
    /// A stage of the walk of the system spends its pivots.
    Spent(SpentAt),
}

/// By a call, which keeps the models of the functions small that own one.
impl Drop for Reason {
    fn drop(self) {
        match self {
            Reason::Below(_) => {}
            Reason::Unbounded(_, _) => {}
            Reason::Wide(_) => {}
            Reason::Spent(_) => {}
        }
    }
}
