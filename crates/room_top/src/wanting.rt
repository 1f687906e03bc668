//! What words want of the outside.
ghost use Rattle.std.specs.Prelude.{◌≡◌, IfOk, option_map};
ghost use Rattle.room_top.specs.Wanting.{address_in, file_in, folder_in, serves_in};

use crate::wanted::Wants;
use room_json::{NoMemory, Text};
use room_words::command_of;
use std::alloc::Global;

/// A copy of a word, where there is one.
fn copied(alloc: Global, word: Option<&str>) -> Result<Option<Text>, NoMemory>
    ensures { IfOk result (λ w. w ≡ option_map (λ s. s.now) word.entry) }
{
    match word {
        Some(word) => Ok(Some(Text::from_str(alloc, word)?)),
        None => Ok(None),
    }
}

/// What the words want of the outside: nothing where they spell no command.
pub fn wants(alloc: Global, words: &[String]) -> Result<Wants, NoMemory>
    ensures folder { IfOk result (λ w. w.folder ≡ folder_in words.now) }
    ensures address { IfOk result (λ w. w.address ≡ address_in words.now) }
    ensures serves { IfOk result (λ w. w.serves ≡ serves_in words.now) }
    ensures table { IfOk result (λ w. w.table ≡ file_in words.now) }
{
    match command_of(alloc, words)? {
        Some(command) => Ok(Wants {
            folder: copied(alloc, command.folder())?,
            address: copied(alloc, command.address())?,
            serves: command.serves(),
            table: copied(alloc, command.file())?,
        }),
        None => Ok(Wants {
            folder: None,
            address: None,
            serves: false,
            table: None,
        }),
    }
}
