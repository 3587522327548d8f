//! Cuts and what may be wrong with one.
ghost use Rattle.std.specs.Prelude.{◌≡◌, IfOk};
ghost use Rattle.cuts.specs.Cuts.{no_good_of};

use lp_base::Sequence;
use nogoods::NoGood;
use std::alloc::{AllocError, Global};
use thiserror::Error;

/// A no-good with its reason, multipliers on constraints whose numbers, counted from 0, ascend.
pub enum Cut {
    /// The weighed sum of the constraints is 0 >= b with b above 0: an extreme ray of the dual.
    Ray {
        ng: NoGood,
        mult: Sequence<(u32, i64)>,
    },
    /// The weighed sum of the constraints is `e` times the cost, at least `v`: a dual point, whose
    /// bound is `v / e`.
    Point {
        ng: NoGood,
        mult: Sequence<(u32, i64)>,
        e: i64,
        v: i128,
    },
}

/// By a call, which keeps the models of the functions small that own one.
impl Drop for Cut {
    fn drop(self) {
        match self {
            Cut::Ray { ng: _, mult: _ } => {}
            Cut::Point {
                ng: _,
                mult: _,
                e: _,
                v: _,
            } => {}
        }
    }
}

impl Cut {
    /// The no-good.
    pub fn no_good(&self) -> &NoGood
        ensures { result.now ≡ no_good_of self.now }
    {
        match self {
            Cut::Ray { ng, .. } | Cut::Point { ng, .. } => ng,
        }
    }

    /// An equal cut.
    pub fn copy(&self, alloc: Global) -> Result<Cut, AllocError>
        ensures { IfOk result (λ made. made ≡ self.now) }
    {
        match self {
            Cut::Ray { ng, mult } => Ok(Cut::Ray {
                ng: ng.copy(alloc)?,
                mult: mult.copy(alloc)?,
            }),
            Cut::Point { ng, mult, e, v } => Ok(Cut::Point {
                ng: ng.copy(alloc)?,
                mult: mult.copy(alloc)?,
                e: *e,
                v: *v,
            }),
        }
    }
}

/// What the test of a cut finds first.
#[derive(Clone, Copy, Debug, Drop, Error, PartialEq, Eq)]
pub enum CutFault {
    #[error("a multiplier or a choice is out of place")]
    Index,
    #[error("a negative multiplier stands on an inequality that is not chosen")]
    Sign,
    #[error("the weighed coefficients are not as they should be")]
    Sum,
    #[error("the weighed right sides are not as they should be")]
    Bound,
}
