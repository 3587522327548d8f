//! The answers, each with its text and its status.
ghost use Rattle.std.specs.Prelude.{◌≡◌, IfOk, string_bytes};
ghost use Rattle.verifier.specs.Answers.{status_of, text_of};

use cert_check::{NoWhy, Verdict};
use cert_text::CertWhy;
use command::Refusal;
use std::alloc::{AllocError, Global};
use std::fmt;

/// What is answered to a deck with a certificate behind it. Lines are counted from 1, those of a
/// certificate among the lines that are no comments.
#[derive(Clone, Copy, Debug, PartialEq, Eq)]
pub enum Answer {
    /// There is no case to judge by, or memory ran out.
    Refused(Refusal),
    /// The first line of the certificate with a fault.
    Certificate { line: u32, why: CertWhy },
    /// The first line of the certificate that fails for the case of the deck.
    No { line: u64, why: NoWhy },
    /// The certificate is accepted for the case of the deck.
    Yes(Verdict),
}

/// The answer's one line, without its end.
impl fmt::Display for Answer {
    ghost use Rattle.std.specs.Prelude.{Some};
    ghost use Rattle.verifier.specs.Answers.{line_of};

    ghost output = { λ a. Some (line_of a) };

    fn fmt<W: fmt::Write>(&self, f: &mut fmt::Formatter<W>) -> fmt::Result {
        match *self {
            Answer::Refused(refusal) => write!(f, "{refusal}"),
            Answer::Certificate { line, why } => write!(f, "no line {line} {}", why.name()),
            Answer::No { line, why } => write!(f, "no line {line} {}", why.name()),
            Answer::Yes(Verdict::Optimal(value)) => write!(f, "yes optimal {value}"),
            Answer::Yes(Verdict::Infeasible) => f.write_str("yes infeasible"),
            Answer::Yes(Verdict::Unbounded) => f.write_str("yes unbounded"),
        }
    }
}

impl Answer {
    /// The whole text of the answer, one line that ends with LF.
    pub fn text(&self, alloc: Global) -> Result<String, AllocError>
        ensures { IfOk result (λ text. string_bytes text ≡ text_of self.now) }
    {
        format!(in alloc; "{self}\n")
    }

    /// The status that a program ends with where the text was written.
    pub fn status(&self) -> u8
        ensures { result ≡ status_of self.now }
    {
        match *self {
            Answer::Yes(_) => 0,
            Answer::Certificate { .. } | Answer::No { .. } => 1,
            Answer::Refused(refusal) => refusal.status(),
        }
    }
}
