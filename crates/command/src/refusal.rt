//! Why an input has no case.
ghost use Rattle.std.specs.Prelude.{◌≡◌, IfOk, string_bytes};
ghost use Rattle.command.specs.Refusals.{of_case_fault, of_deck_fault, status_of, text_of};

use deck_case::CaseFault;
use decks::{DeckFault, DeckWhy};
use std::alloc::{AllocError, Global};
use std::fmt;

/// Why an input has no case. Lines are counted from 1.
#[derive(Clone, Copy, Debug, PartialEq, Eq)]
pub enum Refusal {
    /// Reading the input failed.
    ReadFault,
    /// The input has more bytes than are taken.
    TooLong,
    /// The first line of the deck with a fault.
    Deck { line: u32, why: DeckWhy },
    /// The line that names a row or bound with a number that is too wide for a case.
    RowWide { line: u32 },
    /// The deck has more constraints than a case may have. The line is that of ENDATA.
    TooMany { line: u32 },
    /// Memory ran out.
    NoMemory,
}

/// The refusal's one line, without its end.
impl fmt::Display for Refusal {
    ghost use Rattle.std.specs.Prelude.{Some};
    ghost use Rattle.command.specs.Refusals.{line_of};

    ghost output = { λ r. Some (line_of r) };

    fn fmt<W: fmt::Write>(&self, f: &mut fmt::Formatter<W>) -> fmt::Result {
        match *self {
            Refusal::ReadFault => f.write_str("read fault"),
            Refusal::TooLong => f.write_str("deck: too long"),
            Refusal::Deck { line, why } => write!(f, "deck: line {line}: {}", why.name()),
            Refusal::RowWide { line } => write!(f, "deck: line {line}: RowWide"),
            Refusal::TooMany { line } => write!(f, "deck: line {line}: TooMany"),
            Refusal::NoMemory => f.write_str("no memory"),
        }
    }
}

impl Refusal {
    /// The whole text of the refusal, one line that ends with LF.
    pub fn text(&self, alloc: Global) -> Result<String, AllocError>
        ensures { IfOk result (λ text. string_bytes text ≡ text_of self.now) }
    {
        format!(in alloc; "{self}\n")
    }

    /// The status that a program ends with where the text was written.
    pub fn status(&self) -> u8
        ensures { result ≡ status_of self.now }
    {
        match *self {
            Refusal::TooLong
            | Refusal::Deck { .. }
            | Refusal::RowWide { .. }
            | Refusal::TooMany { .. } => 3,
            Refusal::ReadFault => 4,
            Refusal::NoMemory => 6,
        }
    }
}

impl From<DeckFault> for Refusal {
    ghost from_gives = { λ fault refusal. refusal ≡ of_deck_fault fault };

    fn from(fault: DeckFault) -> Refusal {
        match fault {
            DeckFault::At { line, why } => Refusal::Deck { line, why },
            DeckFault::NoMemory(_) => Refusal::NoMemory,
        }
    }
}

impl From<CaseFault> for Refusal {
    ghost from_gives = { λ fault refusal. refusal ≡ of_case_fault fault };

    fn from(fault: CaseFault) -> Refusal {
        match fault {
            CaseFault::RowWide { line } => Refusal::RowWide { line },
            CaseFault::TooMany { line } => Refusal::TooMany { line },
            CaseFault::NoMemory(_) => Refusal::NoMemory,
        }
    }
}
