//! What the commands of a script say over a session.
ghost use Rattle.std.specs.Prelude.{◌≡◌, ◌<◌, ◌-◌, ◌^◌, ◌⊎◌, ◌++◌, ℕ, List, All, Err, IfErr, IfOk, Ok, OnOk, length};
ghost use Rattle.command.specs.declared.refusal.Refusal.TheVariants.{NoMemory};
ghost use Rattle.edit_text.specs.Scripts.{IsCommand};
ghost use Rattle.editing.specs.declared.refusal.EditRefusal.TheVariants.{Input, Script};
ghost use Rattle.editing.specs.declared.refusal.EditWhy.{EditWhy as Why};
ghost use Rattle.edit_solving.specs.Meanings.{IsRefusedAs};
ghost use Rattle.edit_solving.specs.Scripts.{IsDone, IsMade, IsRefused, IsSolved, Says, refusal_of};

use crate::meanings::edit_of;
use case_edits::{Edit, EditFault};
use command::Refusal;
use edit_session::Session;
use edit_text::Command;
use editing::{EditRefusal, EditWhy};
use report::{Style, status_of, text_of};
use std::alloc::{AllocError, Global};

// Why the edit of a line is not made.
fn refusal_of(fault: EditFault, line: u32) -> EditRefusal
    ensures { result ≡ refusal_of line fault }
{
    let why = match fault {
        EditFault::NoSuch => EditWhy::NoSuch,
        EditFault::Loosens => EditWhy::Loosens,
        EditFault::Limit => EditWhy::Limit,
        EditFault::NoMemory(_) => return EditRefusal::Input(Refusal::NoMemory),
    };
    EditRefusal::Script { line, why }
}

// Makes the edit that the command of a line means.
fn edit_by(
    alloc: Global,
    session: &mut Session,
    command: &Command,
    line: u32,
) -> Result<(), EditRefusal>
    requires { IsCommand command.now }
    ensures made { OnOk result (IsMade command.now session.old session.new) }
    ensures refused { IfErr result (λ r. (r ≡ Input NoMemory) ⊎ ((why : Why) × IsRefusedAs session.old.kept.case_of command.now why × (r ≡ Script line why))) }
{
    let Ok(meant) = edit_of(alloc, session.case(), command) else {
        return Err(EditRefusal::Input(Refusal::NoMemory));
    };
    let Some(edit) = meant else {
        return Err(EditRefusal::Script {
            line,
            why: EditWhy::NoSuch,
        });
    };
    match session.edit(alloc, edit) {
        Ok(()) => Ok(()),
        Err(fault) => Err(refusal_of(fault, line)),
    }
}

// Answers for the present case. What is said of that comes behind the text.
fn answer(alloc: Global, session: &mut Session, text: &mut Vec<u8>) -> Result<u8, AllocError>
    ensures { IfOk result (λ status. (more : List ℕ) × (text.new.items ≡ text.old.items ++ more) × IsSolved session.old session.new more status) }
{
    let ending = session.answer(alloc)?;
    let more = text_of(alloc, session.case(), &ending, Style::Brief)?;
    text.extend_from_slice(more.as_slice())?;
    Ok(status_of(&ending))
}

// Does what the command of a line says. What is said of it comes behind the text.
fn follow(
    alloc: Global,
    session: &mut Session,
    text: &mut Vec<u8>,
    command: &Command,
    line: u32,
) -> Result<u8, EditRefusal>
    requires { IsCommand command.now }
    ensures done { IfOk result (λ status. (more : List ℕ) × (text.new.items ≡ text.old.items ++ more) × IsDone command.now session.old session.new more status) }
    ensures refused { IfErr result (λ r. (r ≡ Input NoMemory) ⊎ ((why : Why) × IsRefused session.old.kept.case_of command.now why × (r ≡ Script line why))) }
{
    if let Command::Solve = command {
        return match answer(alloc, session, text) {
            Ok(status) => Ok(status),
            Err(_) => Err(EditRefusal::Input(Refusal::NoMemory)),
        };
    }
    edit_by(alloc, session, command, line)?;
    Ok(0)
}

/// What the commands say one behind the other, from line 1 on, with the status that goes with it; or the
/// refusal of an edit, or want of memory.
pub fn say(
    alloc: Global,
    session: &mut Session,
    commands: &[Command],
) -> Result<(Vec<u8>, u8), EditRefusal>
    requires rules { All IsCommand commands.now }
    requires few { length commands.now < 2 ^ 32 - 1 }
    ensures said { IfOk result (λ said. Says session.old 1 commands.now (Ok (said.0.items, said.1))) }
    ensures refused { IfErr result (λ r. (r ≡ Input NoMemory) ⊎ Says session.old 1 commands.now (Err r)) }
{
    let mut text = Vec::new(alloc);
    let mut line: u32 = 1;
    for command in commands {
        let status = match follow(alloc, session, &mut text, command, line) {
            Ok(status) => status,
            Err(refusal) => return Err(refusal),
        };
        if status != 0 {
            return Ok((text, status));
        }
        line += 1;
    }
    Ok((text, 0))
}
