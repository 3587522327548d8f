//! Why there is no certificate.
ghost use Rattle.std.specs.Prelude.{◌≡◌, IfOk, string_bytes};
ghost use Rattle.converting.specs.Refusals.{of_fault, status_of, text_of};

use cert_text::{CertFault, CertWhy};
use std::alloc::{AllocError, Global};
use std::fmt;

/// Why an input is no certificate. Lines are counted from 1, among those that are no comments.
#[derive(Clone, Copy, Debug, PartialEq, Eq)]
pub enum Refusal {
    /// Reading the input failed.
    ReadFault,
    /// The input has more bytes than are taken.
    TooLong,
    /// The first line with a fault.
    Line { line: u32, why: CertWhy },
    /// Memory ran out.
    NoMemory,
}

/// The refusal's one line, without its end.
impl fmt::Display for Refusal {
    ghost use Rattle.std.specs.Prelude.{Some};
    ghost use Rattle.converting.specs.Refusals.{line_of};

    ghost output = { λ r. Some (line_of r) };

    fn fmt<W: fmt::Write>(&self, f: &mut fmt::Formatter<W>) -> fmt::Result {
        match *self {
            Refusal::ReadFault => f.write_str("read fault"),
            Refusal::TooLong => f.write_str("certificate: too long"),
            Refusal::Line { line, why } => write!(f, "no line {line} {}", why.name()),
            Refusal::NoMemory => f.write_str("no memory"),
        }
    }
}

impl Refusal {
    /// The whole text of the refusal, one line that ends with LF.
    pub fn text(&self, alloc: Global) -> Result<String, AllocError>
        ensures { IfOk result (λ text. string_bytes text ≡ text_of self.now) }
    {
        format!(in alloc; "{self}\n")
    }

    /// The status that a program ends with where the text was written.
    pub fn status(&self) -> u8
        ensures { result ≡ status_of self.now }
    {
        match *self {
            Refusal::Line { .. } => 1,
            Refusal::TooLong => 3,
            Refusal::ReadFault => 4,
            Refusal::NoMemory => 6,
        }
    }
}

impl From<CertFault> for Refusal {
    ghost from_gives = { λ fault refusal. refusal ≡ of_fault fault };

    fn from(fault: CertFault) -> Refusal {
        match fault {
            CertFault::At { line, why } => Refusal::Line { line, why },
            CertFault::NoMemory(_) => Refusal::NoMemory,
        }
    }
}
