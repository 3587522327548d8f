//! Edits of a case, and why one is refused.
use lp_base::Sequence;
use lpcc_case::Constraint;
use std::alloc::AllocError;
use thiserror::Error;

/// A change of a case.
#[derive(Drop)]
pub enum Edit {
    /// One constraint more, behind the others.
    Add(Constraint),
    /// Another right side for the inequality of this number, counted from 0. It is not below the
    /// present one.
    Tighten { con: u32, rhs: i64 },
    /// Another cost, a number for each column, to be least. The scale is then 1 and the offset 0.
    Cost(Sequence<i64>),
}

/// Why an edit is refused. Where several hold, the first in this order is named.
#[derive(Clone, Copy, Debug, Drop, Error, PartialEq, Eq)]
pub enum EditFault {
    /// A term names no column, the columns of the terms do not ascend, a term is zero, the cost has
    /// not a number for each column, or there is no constraint of the number.
    #[error("NoSuch")]
    NoSuch,
    /// The constraint to be tightened is an equation, or its new right side is below the present one.
    #[error("Loosens")]
    Loosens,
    /// A number is past 2^52 in size, or there are 2,000 constraints already.
    #[error("Limit")]
    Limit,
    #[error(transparent)]
    NoMemory(AllocError),
}

impl From<AllocError> for EditFault {
    ghost use Rattle.std.specs.Prelude.{◌≡◌};
    ghost use Rattle.case_edits.specs.declared.edit.EditFault.TheVariants.{NoMemory};

    ghost from_gives = { λ e f. f ≡ NoMemory e };

    fn from(error: AllocError) -> EditFault {
        EditFault::NoMemory(error)
    }
}
