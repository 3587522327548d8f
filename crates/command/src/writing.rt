//! Writing an answer.
ghost use Rattle.std.specs.Prelude.{◌≡◌, ◌⊎◌};
ghost use Rattle.command.specs.Answers.{IsWritten};
ghost use Rattle.command.specs.Refusals.{status_of, text_of};
ghost use Rattle.command.specs.declared.refusal.Refusal.{Refusal as Reason};
ghost use Rattle.command.specs.declared.refusal.Refusal.TheVariants.{NoMemory};

use crate::refusal::Refusal;
use lp_io::{Sink, put_all};
use std::alloc::Global;

/// The number that a program ends with.
pub type Status = u8;

/// The status where the text could not be written.
pub const WRITE_FAULT: Status = 5;

/// Writes the text, and answers the status that goes with it, or 5 where writing failed. It takes
/// no memory.
pub fn give<K: Sink>(text: &[u8], status: Status, out: &mut K) -> Status
    ensures { IsWritten (K.taken out.old) (K.taken out.new) (K.faults out.old) (K.faults out.new) text.now status result }
{
    match put_all(out, text) {
        Ok(()) => status,
        Err(_) => WRITE_FAULT,
    }
}

/// Writes the answer that memory ran out. It takes no memory.
pub fn give_no_memory<K: Sink>(out: &mut K) -> Status
    ensures { IsWritten (K.taken out.old) (K.taken out.new) (K.faults out.old) (K.faults out.new) (text_of NoMemory) (status_of NoMemory) result }
{
    give(b"no memory\n", Refusal::NoMemory.status(), out)
}

/// Makes the whole text of the refusal and writes it. Where there is no memory for the text, that
/// is the answer.
pub fn give_refusal<K: Sink>(alloc: Global, refusal: Refusal, out: &mut K) -> Status
    ensures { (given : Reason) × ((given ≡ refusal) ⊎ (given ≡ NoMemory))
        × IsWritten (K.taken out.old) (K.taken out.new) (K.faults out.old) (K.faults out.new) (text_of given) (status_of given) result }
{
    match refusal.text(alloc) {
        Ok(text) => give(text.as_bytes(), refusal.status(), out),
        Err(_) => give_no_memory(out),
    }
}
