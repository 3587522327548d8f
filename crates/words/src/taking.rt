//! Which words are a command.
ghost use Rattle.std.specs.Prelude.{◌≡◌, IfOk, IfSome, Some, map, string_bytes};
ghost use Rattle.words.specs.Commands.{command_of};

use crate::command::{Command, command_in};
use crate::rules::lpcc_command;
use clap::error::ErrorKind;
use std::alloc::{AllocError, Global};

/// The command that the words are, those behind the program's name. None where they are none.
pub fn command_of(alloc: Global, words: &[String]) -> Result<Option<Command>, AllocError>
    ensures { IfOk result (λ found. found ≡ command_of (map string_bytes words.now)) }
{
    let rules = lpcc_command(alloc)?;
    match rules.try_get_matches_from(words) {
        Ok(matches) => Ok(command_in(&matches)),
        Err(error) => {
            if error.kind() == ErrorKind::OutOfMemory {
                Err(AllocError)
            } else {
                Ok(None)
            }
        }
    }
}
