//! How a line begins.
ghost use Rattle.std.specs.Prelude.{◌≡◌, ◌++◌, ◌∷◌, decimal, IfOk, OnOk};
ghost use Rattle.room_report.specs.Words.{head};

use room_ids::push_number;
use room_json::{NoMemory, Text};
use std::alloc::Global;

/// The first words: what the line is of, and the mark of the client, if it has one.
pub(crate) fn start_of(alloc: Global, name: &str, mark: Option<u64>) -> Result<Text, NoMemory>
    ensures { IfOk result (λ t. t ≡ head name.now mark) }
{
    let mut line = Text::from_str(alloc, name)?;
    if let Some(client) = mark {
        add_number(alloc, &mut line, client)?;
    }
    Ok(line)
}

/// A word more.
pub(crate) fn add(line: &mut Text, word: &str) -> Result<(), NoMemory>
    ensures { OnOk result (line.new ≡ line.old ++ 32 ∷ word.now) }
{
    line.push_str(" ")?;
    line.push_str(word)
}

/// A number more, in decimal.
pub(crate) fn add_number(alloc: Global, line: &mut Text, number: u64) -> Result<(), NoMemory>
    ensures { OnOk result (line.new ≡ line.old ++ 32 ∷ decimal number) }
{
    line.push_str(" ")?;
    push_number(alloc, line, number)
}
