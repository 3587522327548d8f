//! Why a pivot was not made.
use std::alloc::AllocError;
use thiserror::Error;

/// The pivot that was asked for, and the place of a number that would not be narrow after it.
#[derive(Clone, Copy, Debug, PartialEq, Eq)]
pub struct Wide {
    pub row: u32,
    pub col: u32,
    pub at_row: u32,
    /// A column, or the number of columns for the constant, or one more for the denominator.
    pub at_col: u32,
}

/// Why a pivot was not made. The dictionary is then as before.
#[derive(Debug, Drop, Error)]
pub enum PivotFault {
    #[error("row {} would have a number that is not narrow at place {}", .0.at_row, .0.at_col)]
    Wide(Wide),
    #[error(transparent)]
    NoMemory(AllocError),
}
