//! Reading a script, line by line.
ghost use Rattle.std.specs.Prelude.{◌≡◌, ◌≤◌, ◌<◌, ◌-◌, ◌^◌, ◌∷◌, ℕ, [], IfOk, IfErr, MatchOption, bytes_eq, length, nat_lt};
ghost use Rattle.lp_base.specs.Answers.{Gives, Refuses};
ghost use Rattle.cert_text.specs.Splits.{split};
ghost use Rattle.edit_text.specs.declared.fault.ScriptWhy.{ScriptWhy as Why};
ghost use Rattle.edit_text.specs.declared.script.Script.{Script as Commands};
ghost use Rattle.edit_text.specs.Reading.{command_in};
ghost use Rattle.edit_text.specs.Steps.{Finds, IsFirst, at, over_at, placed, script_in};
ghost use Rattle.edit_text.specs.Texts.{Fails, FailsAs, Spells, end_line, found_by};

use crate::commands::parse_command;
use crate::{Command, Script, ScriptFault, ScriptWhy};
use cert_text::split::place_of;
use cert_text::words::Fault;
use lp_base::Sequence;
use std::alloc::Global;

// The first line that an LF ends, and what stands behind its LF.
fn split_line(text: &[u8]) -> Option<(&[u8], &[u8])>
    ensures { MatchOption result (split 10 text.now ≡ text.now ∷ []) (λ parts. IsFirst text.now parts.0.now parts.1.now) }
{
    if let Some(at) = place_of(b'\n', text) {
        let (line, behind) = text.split_at(at);
        return Some((line, &behind[1..]));
    }
    None
}

fn is_end(line: &[u8]) -> bool
    ensures { result ≡ bytes_eq line.now end_line }
{
    line == b"end".as_slice()
}

fn has_bytes(text: &[u8]) -> bool
    ensures { result ≡ nat_lt 0 (length text.now) }
{
    !text.is_empty()
}

// What was read of the line with this number.
fn placed<T>(read: Result<T, Fault>, line: u32) -> Result<T, ScriptFault>
    ensures { result ≡ placed line read }
{
    match read {
        Ok(value) => Ok(value),
        Err(Fault::Memory(error)) => Err(ScriptFault::NoMemory(error)),
        Err(Fault::Of(_)) => Err(ScriptFault::At {
            line,
            why: ScriptWhy::BadEdit,
        }),
    }
}

fn parse_line(alloc: Global, line: &[u8], number: u32) -> Result<Command, ScriptFault>
    ensures { Finds (λ command. command) result (at number (command_in line.now)) }
{
    placed(parse_command(alloc, line), number)
}

// Nothing stands behind the last line. It would be a line of this number.
fn parse_end(behind: &[u8], number: u32) -> Result<(), ScriptFault>
    ensures { Finds (λ _. []) result (over_at number (split 10 behind.now)) }
{
    if has_bytes(behind) {
        return Err(ScriptFault::At {
            line: number,
            why: ScriptWhy::AfterEnd,
        });
    }
    Ok(())
}

fn parse_commands(alloc: Global, text: &[u8]) -> Result<Sequence<Command>, ScriptFault>
    requires { length text.now < 2 ^ 32 - 1 }
    ensures { Finds (λ commands. commands) result (script_in text.now) }
{
    let mut commands = Sequence::new(alloc);
    let mut rest = text;
    let mut number: u32 = 1;
    while let Some((line, behind)) = split_line(rest) {
        if is_end(line) {
            parse_end(behind, number + 1)?;
            return Ok(commands);
        }
        commands.push(parse_line(alloc, line, number)?)?;
        rest = behind;
        number += 1;
    }
    Err(ScriptFault::At {
        line: number,
        why: ScriptWhy::NotEnded,
    })
}

fn parse_script(alloc: Global, text: &[u8]) -> Result<Script, ScriptFault>
    requires { length text.now < 2 ^ 32 - 1 }
    ensures { Finds (λ script. script.commands) result (script_in text.now) }
{
    let commands = parse_commands(alloc, text)?;
    Ok(Script { commands })
}

/// The script that a text spells, or the text's first fault. The time is linear in the text.
pub fn read_script(alloc: Global, text: &[u8]) -> Result<Script, ScriptFault>
    requires { length text.now < 2 ^ 32 - 1 }
    // What is read is spelled so, and what is spelled so is read, unless memory is short.
    ensures spelled { IfOk result (λ script. Spells text.now script) }
    ensures only { (script : Commands) → Spells text.now script → Gives found_by script result }

    // The fault that is named is the text's first, and the first is named, unless memory is short.
    ensures fails { IfErr result (λ fault. FailsAs fault text.now) }
    ensures only_fails { (line : ℕ) (why : Why) → Fails text.now line why → Refuses found_by (line, why) result }
{
    parse_script(alloc, text)
}
