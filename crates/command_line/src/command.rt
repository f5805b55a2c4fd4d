// What the words after the program's name ask.
ghost use Rattle.std.specs.Prelude.{◌≡◌, IfOk, IfSome, map, option_map, string_bytes};
ghost use Rattle.command_words.specs.Commands.{asked_by};
ghost use Rattle.command_words.specs.Views.{MayDo, asked_of};

use crate::line::command_line;
use crate::matches::asked_in;
use clap::error::ErrorKind;
use command_words::Command;
use frang_base::NoMemory;
use std::alloc::Global;

// That an error isn't want of memory.
fn no_want(kind: ErrorKind) -> Result<(), NoMemory>
    ensures { IfOk result (λ done. kind ≡ ErrorKind.OutOfMemory → ⊥) }
{
    match kind {
        ErrorKind::OutOfMemory => Err(NoMemory),
        _ => Ok(()),
    }
}

/// What the words after the program's name ask. `Ok(None)` exactly where they are no command, but for want of memory.
pub fn command_of<'a>(alloc: Global, words: &'a [String]) -> Result<Option<Command<'a>>, NoMemory>
    ensures is { IfOk result (λ asked. option_map asked_of asked ≡ asked_by (map string_bytes words.now)) }
    ensures may { IfOk result (λ asked. IfSome asked (λ command. MayDo command)) }
{
    let line = command_line(alloc)?;
    match line.try_get_matches_from(words) {
        Ok(matches) => Ok(asked_in(&matches)),
        Err(error) => {
            no_want(error.kind())?;
            Ok(None)
        }
    }
}
