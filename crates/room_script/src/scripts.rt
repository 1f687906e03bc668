//! The lines of a script, as text.
ghost use Rattle.std.specs.Prelude.{◌≡◌, option_map, codes};
ghost use Rattle.std.specs.Option.{option_copied};
ghost use Rattle.room_script.specs.Grammar.{take_in, told_alone, script_line};
ghost use Rattle.room_script.specs.Giving.{Gives};
ghost use Rattle.room_script.specs.Told.{told_of, scripted};

use crate::calls::{read_call, read_question};
use crate::fault::Misread;
use crate::lines::Line;
use crate::numbers::read_number;
use crate::words::{at_end, cut, next};
use std::alloc::Global;

/// A line of a script.
pub(crate) fn read_script_line(alloc: Global, line: &[u8]) -> Result<Line, Misread>
    ensures { Gives told_of result (option_map scripted (script_line line.now)) }
{
    let (name, rest) = cut(line);
    if name == b"take".as_slice() {
        read_take_frames(rest)
    } else {
        line_of_the_client(alloc, name, rest)
    }
}

fn read_take_frames(rest: Option<&[u8]>) -> Result<Line, Misread>
    ensures { Gives told_of result (option_map scripted (take_in (option_copied rest.entry))) }
{
    let (word, rest) = cut(next(rest)?);
    let frames = read_number(word, u64::MAX)?;
    let (word, rest) = cut(next(rest)?);
    let tries = read_number(word, u64::MAX)?;
    at_end(rest)?;
    Ok(Line::Take(frames, tries))
}

/// A call of the one client, or a question.
fn line_of_the_client(alloc: Global, name: &[u8], rest: Option<&[u8]>) -> Result<Line, Misread>
    ensures { Gives told_of result (option_map scripted (told_alone name.now (option_copied rest.entry))) }
{
    match read_call(alloc, 0, name, rest) {
        Ok(line) => Ok(line),
        Err(Misread::Memory) => Err(Misread::Memory),
        Err(Misread::Outside) => read_question(0, name, rest),
    }
}
