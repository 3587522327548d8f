//! Why a text is no script.
ghost use Rattle.std.specs.Prelude.{◌≡◌};
ghost use Rattle.edit_text.specs.Names.{name_of};

use std::alloc::AllocError;
use thiserror::Error;

/// What is wrong with a line.
#[derive(Clone, Copy, Debug, PartialEq, Eq)]
pub enum ScriptWhy {
    /// The line has no form that a command has, or a number past 2^63 - 1 in size.
    BadEdit,
    /// The text ends before its last line does.
    NotEnded,
    /// Something stands behind the last line.
    AfterEnd,
}

/// Why no script was read.
#[derive(Debug, Drop, Error)]
pub enum ScriptFault {
    #[error(transparent)]
    NoMemory(AllocError),
    /// The first line with a fault, counted from 1.
    #[error("line {line}: {why:?}")]
    At { line: u32, why: ScriptWhy },
}

impl From<AllocError> for ScriptFault {
    ghost use Rattle.std.specs.Prelude.{◌≡◌};
    ghost use Rattle.edit_text.specs.declared.fault.ScriptFault.TheVariants.{NoMemory};

    ghost from_gives = { λ e f. f ≡ NoMemory e };

    fn from(error: AllocError) -> ScriptFault {
        ScriptFault::NoMemory(error)
    }
}

impl ScriptWhy {
    /// The name of the reason.
    pub fn name(self) -> &'static str
        ensures { result.now ≡ name_of self }
    {
        match self {
            ScriptWhy::BadEdit => "BadEdit",
            ScriptWhy::NotEnded => "NotEnded",
            ScriptWhy::AfterEnd => "AfterEnd",
        }
    }
}
