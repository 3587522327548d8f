//! Why a deck has no case.
use std::alloc::{AllocError, AllocFailed};
use thiserror::Error;

/// Why a deck has no case. It is printed as its line and its name.
#[derive(Debug, Drop, Error)]
pub enum CaseFault {
    /// One of the whole numbers of a row, of the objective or of a bound is past 2^52 in size. The
    /// line is that of ROWS which names the row, or the one that set the bound.
    #[error("line {line}: RowWide")]
    RowWide { line: u32 },
    /// More than 2,000 constraints. The line is that of ENDATA.
    #[error("line {line}: TooMany")]
    TooMany { line: u32 },
    #[error(transparent)]
    NoMemory(AllocError),
}

impl From<AllocError> for CaseFault {
    ghost use Rattle.std.specs.Prelude.{◌≡◌};
    ghost use Rattle.deck_case.specs.declared.fault.CaseFault.TheVariants.{NoMemory};

    ghost from_gives = { λ e f. f ≡ NoMemory e };

    fn from(error: AllocError) -> CaseFault {
        CaseFault::NoMemory(error)
    }
}

impl<T: Drop> From<AllocFailed<T>> for CaseFault {
    ghost use Rattle.deck_case.specs.Faults.{IsNoMemory};

    ghost from_gives = { λ _ f. IsNoMemory f };

    fn from(failed: AllocFailed<T>) -> CaseFault {
        CaseFault::NoMemory(AllocError::from(failed))
    }
}
