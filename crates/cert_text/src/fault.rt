//! Why a text is no certificate.
ghost use Rattle.std.specs.Prelude.{◌≡◌};
ghost use Rattle.cert_text.specs.Names.{name_of};

use std::alloc::AllocError;
use thiserror::Error;

/// What is wrong with a content line.
#[derive(Clone, Copy, Debug, PartialEq, Eq)]
pub enum CertWhy {
    /// The first content line is not the head, or there is none.
    BadHead,
    /// The line has no form that may stand here, or a token or the order of tokens is wrong.
    BadLine,
    /// No pair's number from 1 to 512 with a side, or pairs that do not ascend.
    BadChoice,
    /// A number past the size that its place has.
    NumberWide,
    /// The last line counts another number of no-good lines.
    BadCount,
    /// The text ends before its last line does.
    NotEnded,
    /// Something other than comments stands behind the last line.
    AfterEnd,
}

/// Why no certificate was read.
#[derive(Debug, Drop, Error)]
pub enum CertFault {
    #[error(transparent)]
    NoMemory(AllocError),
    /// The first content line with a fault, counted from 1 among lines that are no comments.
    #[error("line {line}: {why:?}")]
    At { line: u32, why: CertWhy },
}

impl From<AllocError> for CertFault {
    ghost use Rattle.std.specs.Prelude.{◌≡◌};
    ghost use Rattle.cert_text.specs.declared.fault.CertFault.TheVariants.{NoMemory};

    ghost from_gives = { λ e f. f ≡ NoMemory e };

    fn from(error: AllocError) -> CertFault {
        CertFault::NoMemory(error)
    }
}

impl CertWhy {
    /// The name of the reason.
    pub fn name(self) -> &'static str
        ensures { result.now ≡ name_of self }
    {
        match self {
            CertWhy::BadHead => "BadHead",
            CertWhy::BadLine => "BadLine",
            CertWhy::BadChoice => "BadChoice",
            CertWhy::NumberWide => "NumberWide",
            CertWhy::BadCount => "BadCount",
            CertWhy::NotEnded => "NotEnded",
            CertWhy::AfterEnd => "AfterEnd",
        }
    }
}
