//! One linear constraint.
ghost use Rattle.std.specs.Prelude.{◌≡◌, IfOk};

use lp_base::Sequence;
use std::alloc::{AllocError, Global};

/// How a left side stands to the right side.
#[derive(Clone, Copy, Debug, PartialEq, Eq)]
pub enum Kind {
    /// At least the right side.
    Ge,
    /// Equal to the right side.
    Eq,
}

/// The sum of the terms is at least, or equal to, the right side. A term is a column, counted
/// from 0, with its coefficient.
pub struct Constraint {
    pub kind: Kind,
    pub terms: Sequence<(u32, i64)>,
    pub rhs: i64,
}

/// By a call, which keeps the models of the functions small that own one.
impl Drop for Constraint {
    fn drop(self) {
        let Constraint {
            kind: _,
            terms: _,
            rhs: _,
        } = self;
    }
}

impl Constraint {
    /// An equal constraint.
    pub fn copy(&self, alloc: Global) -> Result<Constraint, AllocError>
        ensures { IfOk result (λ made. made ≡ self.now) }
    {
        Ok(Constraint {
            kind: self.kind,
            terms: self.terms.copy(alloc)?,
            rhs: self.rhs,
        })
    }
}
