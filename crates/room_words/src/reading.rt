//! From words to a command.
ghost use Rattle.std.specs.Prelude.{◌≡◌, IfOk, map, option_map, string_bytes};
ghost use Rattle.room_words.specs.Words.{command_of};
ghost use Rattle.room_words.specs.Telling.{told};

use crate::checks::are_words;
use crate::command::Command;
use crate::found::found;
use crate::grammar::program;
use clap::error::ErrorKind;
use room_json::NoMemory;
use std::alloc::Global;

/// The command that the words spell; none exactly where they spell none.
///
/// Words are those behind the program's name. `help`, `-h` and `--version` spell no command, and neither do words of
/// which one is empty or begins with a hyphen.
pub fn command_of<'a>(alloc: Global, words: &'a [String]) -> Result<Option<Command<'a>>, NoMemory>
    ensures { IfOk result (λ c. option_map told c ≡ command_of (map string_bytes words.entry.now)) }
{
    if !are_words(words) {
        return Ok(None);
    }
    let Ok(program) = program(alloc) else {
        return Err(NoMemory);
    };
    match program.try_get_matches_from(words) {
        Ok(matches) => match matches.subcommand() {
            Some((name, inner)) => Ok(found(name, inner)),
            None => Ok(None),
        },
        Err(error) => match error.kind() {
            ErrorKind::OutOfMemory => Err(NoMemory),
            _ => Ok(None),
        },
    }
}
