//! Why a deck with a script behind it is not answered.
ghost use Rattle.std.specs.Prelude.{◌≡◌, ◌⊎◌, IfOk, string_bytes};
ghost use Rattle.command.specs.Answers.{IsWritten};
ghost use Rattle.command.specs.declared.refusal.Refusal.TheVariants.{NoMemory};
ghost use Rattle.editing.specs.Refusals.{of_script_fault, status_of, text_of, why_name};
ghost use Rattle.editing.specs.declared.refusal.EditRefusal.{EditRefusal as Reason};
ghost use Rattle.editing.specs.declared.refusal.EditRefusal.TheVariants.{Input};

use command::{Refusal, Status, give, give_no_memory};
use edit_text::{ScriptFault, ScriptWhy};
use lp_io::Sink;
use std::alloc::{AllocError, Global};
use std::fmt;

/// What is wrong with a line of a script.
#[derive(Clone, Copy, Debug, PartialEq, Eq)]
pub enum EditWhy {
    /// The text is no script.
    Text(ScriptWhy),
    /// The edit names a column or a constraint that is not there, or columns that do not ascend.
    NoSuch,
    /// The right side of an equation, or one below the present one.
    Loosens,
    /// A number past 2^52 in size, or one constraint too many.
    Limit,
}

impl EditWhy {
    /// The name of the reason.
    pub fn name(self) -> &'static str
        ensures { result.now ≡ why_name self }
    {
        match self {
            EditWhy::Text(why) => why.name(),
            EditWhy::NoSuch => "NoSuch",
            EditWhy::Loosens => "Loosens",
            EditWhy::Limit => "Limit",
        }
    }
}

/// Why nothing is answered. Lines are counted from 1.
#[derive(Clone, Copy, Debug, PartialEq, Eq)]
pub enum EditRefusal {
    /// There is no case to edit, or memory ran out.
    Input(Refusal),
    /// The line of the script that is refused.
    Script { line: u32, why: EditWhy },
}

/// The refusal's one line, without its end.
impl fmt::Display for EditRefusal {
    ghost use Rattle.std.specs.Prelude.{Some};
    ghost use Rattle.editing.specs.Refusals.{line_of};

    ghost output = { λ r. Some (line_of r) };

    fn fmt<W: fmt::Write>(&self, f: &mut fmt::Formatter<W>) -> fmt::Result {
        match *self {
            EditRefusal::Input(refusal) => write!(f, "{refusal}"),
            EditRefusal::Script { line, why } => write!(f, "script: line {line}: {}", why.name()),
        }
    }
}

impl EditRefusal {
    /// The whole text of the refusal, one line that ends with LF.
    pub fn text(&self, alloc: Global) -> Result<String, AllocError>
        ensures { IfOk result (λ text. string_bytes text ≡ text_of self.now) }
    {
        format!(in alloc; "{self}\n")
    }

    /// The status that a program ends with where the text was written.
    pub fn status(&self) -> u8
        ensures { result ≡ status_of self.now }
    {
        match *self {
            EditRefusal::Input(refusal) => refusal.status(),
            EditRefusal::Script { .. } => 3,
        }
    }
}

impl From<Refusal> for EditRefusal {
    ghost from_gives = { λ refusal r. r ≡ Input refusal };

    fn from(refusal: Refusal) -> EditRefusal {
        EditRefusal::Input(refusal)
    }
}

impl From<AllocError> for EditRefusal {
    ghost from_gives = { λ _ r. r ≡ Input NoMemory };

    fn from(_error: AllocError) -> EditRefusal {
        EditRefusal::Input(Refusal::NoMemory)
    }
}

impl From<ScriptFault> for EditRefusal {
    ghost from_gives = { λ fault refusal. refusal ≡ of_script_fault fault };

    fn from(fault: ScriptFault) -> EditRefusal {
        match fault {
            ScriptFault::At { line, why } => EditRefusal::Script {
                line,
                why: EditWhy::Text(why),
            },
            ScriptFault::NoMemory(_) => EditRefusal::Input(Refusal::NoMemory),
        }
    }
}

/// Makes the whole text of the refusal and writes it. Where there is no memory for the text, that
/// is the answer.
pub fn give_edit_refusal<K: Sink>(alloc: Global, refusal: EditRefusal, out: &mut K) -> Status
    ensures { (given : Reason) × ((given ≡ refusal) ⊎ (given ≡ Input NoMemory))
        × IsWritten (K.taken out.old) (K.taken out.new) (K.faults out.old) (K.faults out.new) (text_of given) (status_of given) result }
{
    match refusal.text(alloc) {
        Ok(text) => give(text.as_bytes(), refusal.status(), out),
        Err(_) => give_no_memory(out),
    }
}
