//! Why a text is no problem.
ghost use Rattle.std.specs.Prelude.{◌≡◌};
ghost use Rattle.front_text.specs.Names.{name_of};

use std::alloc::AllocError;
use thiserror::Error;

/// What is wrong with a line. Of one line the first that holds in this order is named.
#[derive(Clone, Copy, Debug, PartialEq, Eq)]
pub enum FrontWhy {
    /// The first line is not the head, or there is none.
    BadHead,
    /// The line has no form that may stand here, or a token or the order of tokens is wrong.
    BadLine,
    /// A number that names no variable.
    NoSuch,
    /// A number past 2^52 in size.
    Wide,
    /// The deck of the problem would have more of something than a deck or its case may have.
    TooMany,
    /// The text ends before its last line does.
    NotEnded,
    /// Something stands behind the last line.
    AfterEnd,
}

/// Why no problem was read.
#[derive(Debug, Drop, Error)]
pub enum FrontFault {
    #[error(transparent)]
    NoMemory(AllocError),
    /// The first line with a fault, counted from 1.
    #[error("line {line}: {why:?}")]
    At { line: u32, why: FrontWhy },
}

impl From<AllocError> for FrontFault {
    ghost use Rattle.std.specs.Prelude.{◌≡◌};
    ghost use Rattle.front_text.specs.declared.fault.FrontFault.TheVariants.{NoMemory};

    ghost from_gives = { λ e f. f ≡ NoMemory e };

    fn from(error: AllocError) -> FrontFault {
        FrontFault::NoMemory(error)
    }
}

impl FrontWhy {
    /// The name of the reason.
    pub fn name(self) -> &'static str
        ensures { result.now ≡ name_of self }
    {
        match self {
            FrontWhy::BadHead => "BadHead",
            FrontWhy::BadLine => "BadLine",
            FrontWhy::NoSuch => "NoSuch",
            FrontWhy::Wide => "Wide",
            FrontWhy::TooMany => "TooMany",
            FrontWhy::NotEnded => "NotEnded",
            FrontWhy::AfterEnd => "AfterEnd",
        }
    }
}
