//! Why an input is no problem.
ghost use Rattle.std.specs.Prelude.{◌≡◌, ◌⊎◌, IfOk, string_bytes};
ghost use Rattle.command.specs.Answers.{IsWritten};
ghost use Rattle.fronting.specs.Refusals.{of_fault, status_of, text_of};
ghost use Rattle.fronting.specs.declared.refusal.FrontRefusal.{FrontRefusal as Reason};
ghost use Rattle.fronting.specs.declared.refusal.FrontRefusal.TheVariants.{NoMemory};

use command::{Status, give, give_no_memory};
use front_text::{FrontFault, FrontWhy};
use lp_io::Sink;
use std::alloc::{AllocError, Global};
use std::fmt;

/// Why no problem was read from an input. Lines are counted from 1.
#[derive(Clone, Copy, Debug, PartialEq, Eq)]
pub enum FrontRefusal {
    /// Reading the input failed.
    ReadFault,
    /// The input has more bytes than are taken.
    TooLong,
    /// The first line of the text with a fault.
    Problem { line: u32, why: FrontWhy },
    /// Memory ran out.
    NoMemory,
}

/// The refusal's one line, without its end.
impl fmt::Display for FrontRefusal {
    ghost use Rattle.std.specs.Prelude.{Some};
    ghost use Rattle.fronting.specs.Refusals.{line_of};

    ghost output = { λ r. Some (line_of r) };

    fn fmt<W: fmt::Write>(&self, f: &mut fmt::Formatter<W>) -> fmt::Result {
        match *self {
            FrontRefusal::ReadFault => f.write_str("read fault"),
            FrontRefusal::TooLong => f.write_str("front: too long"),
            FrontRefusal::Problem { line, why } => write!(f, "front: line {line}: {}", why.name()),
            FrontRefusal::NoMemory => f.write_str("no memory"),
        }
    }
}

impl FrontRefusal {
    /// The whole text of the refusal, one line that ends with LF.
    pub fn text(&self, alloc: Global) -> Result<String, AllocError>
        ensures { IfOk result (λ text. string_bytes text ≡ text_of self.now) }
    {
        format!(in alloc; "{self}\n")
    }

    /// The status that a program ends with where the text was written.
    pub fn status(&self) -> u8
        ensures { result ≡ status_of self.now }
    {
        match *self {
            FrontRefusal::TooLong | FrontRefusal::Problem { .. } => 3,
            FrontRefusal::ReadFault => 4,
            FrontRefusal::NoMemory => 6,
        }
    }
}

impl From<FrontFault> for FrontRefusal {
    ghost from_gives = { λ fault refusal. refusal ≡ of_fault fault };

    fn from(fault: FrontFault) -> FrontRefusal {
        match fault {
            FrontFault::At { line, why } => FrontRefusal::Problem { line, why },
            FrontFault::NoMemory(_) => FrontRefusal::NoMemory,
        }
    }
}

/// Makes the whole text of the refusal and writes it. Where there is no memory for the text, that
/// is the answer.
pub fn give_front_refusal<K: Sink>(alloc: Global, refusal: FrontRefusal, out: &mut K) -> Status
    ensures { (given : Reason) × ((given ≡ refusal) ⊎ (given ≡ NoMemory))
        × IsWritten (K.taken out.old) (K.taken out.new) (K.faults out.old) (K.faults out.new) (text_of given) (status_of given) result }
{
    match refusal.text(alloc) {
        Ok(text) => give(text.as_bytes(), refusal.status(), out),
        Err(_) => give_no_memory(out),
    }
}
