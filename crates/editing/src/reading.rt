//! The case and the script that a source gives.
ghost use Rattle.std.specs.Prelude.{◌≡◌, ◌<◌, ◌≤◌, ◌⊎◌, ◌^◌, ◌-◌, IfErr, IfOk, length};
ghost use Rattle.command.specs.declared.refusal.Refusal.TheVariants.{NoMemory};
ghost use Rattle.edit_text.specs.Texts.{Spells};
ghost use Rattle.editing.specs.Inputs.{AreRightEdits, IsBehind, IsEditRefusal, KeepsRules, SpellsEdits};
ghost use Rattle.editing.specs.declared.refusal.EditRefusal.TheVariants.{Input};

use crate::laws::edits_are_read_once;
use crate::refusal::EditRefusal;
use command::{Extent, MOST_DECK_BYTES, case_in, take};
use edit_text::{Script, read_script};
use lp_io::Source;
use lpcc_case::Case;
use std::alloc::Global;

// The script that the bytes behind a deck spell.
fn script_behind(alloc: Global, rest: &[u8]) -> Result<Script, EditRefusal>
    requires { length rest.now < 2 ^ 32 - 1 }
    ensures spelled { IfOk result (λ script. Spells rest.now script) }
    ensures refused { IfErr result (λ r. (r ≡ Input NoMemory) ⊎ IsBehind rest.now r) }
{
    match read_script(alloc, rest) {
        Ok(script) => Ok(script),
        Err(fault) => Err(EditRefusal::from(fault)),
    }
}

// The case of the deck with which the input begins, and the script behind it.
fn edits_in(alloc: Global, input: &[u8]) -> Result<(Case, Script), EditRefusal>
    requires { length input.now ≤ MOST_DECK_BYTES }
    ensures spelled { IfOk result (λ edits. SpellsEdits input.now edits.0 edits.1) }
    ensures rules { IfOk result (λ edits. KeepsRules edits.1) }
    ensures refused { IfErr result (λ r. (r ≡ Input NoMemory) ⊎ IsEditRefusal MOST_DECK_BYTES input.now r) }
{
    match case_in(alloc, input, Extent::Prefix) {
        Ok((case, place)) => match script_behind(alloc, &input[place..]) {
            Ok(script) => Ok((case, script)),
            Err(refusal) => Err(refusal),
        },
        Err(refusal) => Err(EditRefusal::Input(refusal)),
    }
}

/// The case of the deck that the source gives, and the script behind it, at most 67,108,864 bytes
/// together; or the first fault, the deck being judged first and then the whole script. The source is
/// read to its end first.
pub fn read_edits<S: Source>(alloc: Global, src: &mut S) -> Result<(Case, Script), EditRefusal>
    ensures right { AreRightEdits (S.left src.old) (S.faults src.old) (S.faults src.new) result }
    ensures rules { IfOk result (λ edits. KeepsRules edits.1) }
{
    edits_are_read_once();
    let input = take(alloc, src, MOST_DECK_BYTES)?;
    edits_in(alloc, &input)
}
