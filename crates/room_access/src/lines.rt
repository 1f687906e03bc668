//! The lines of an access text.
ghost use Rattle.std.specs.Prelude.{◌≡◌, codes};
ghost use Rattle.std.specs.Option.{option_copied};
ghost use Rattle.room_access.specs.Grammar.{access_line, line_named, pass_in, rule_in};
ghost use Rattle.room_access.specs.Giving.{Gives};
ghost use Rattle.room_access.specs.Lines.{line_of};

use crate::access::{Pass, Rule};
use crate::fault::Misread;
use crate::words::{at_end, cut, next, read_key, read_level, read_name, read_place};
use std::alloc::Global;

/// A line.
#[derive(Drop)]
pub(crate) enum Line {
    Pass(Pass),
    Rule(Rule),
}

/// Reads a line.
pub(crate) fn read_line(alloc: Global, line: &[u8]) -> Result<Line, Misread>
    ensures { Gives line_of result (access_line line.now) }
{
    let (name, rest) = cut(line);
    line_by_name(alloc, name, rest)
}

/// A line by its name and what is left behind it.
fn line_by_name(alloc: Global, name: &[u8], rest: Option<&[u8]>) -> Result<Line, Misread>
    ensures { Gives line_of result (line_named name.now (option_copied rest.entry)) }
{
    if name == b"pass".as_slice() {
        read_pass(alloc, rest)
    } else if name == b"rule".as_slice() {
        read_rule(alloc, rest)
    } else {
        Err(Misread::Outside)
    }
}

fn read_pass(alloc: Global, rest: Option<&[u8]>) -> Result<Line, Misread>
    ensures { Gives line_of result (pass_in (option_copied rest.entry)) }
{
    let (first, rest) = cut(next(rest)?);
    let word = read_key(alloc, first)?;
    let (second, rest) = cut(next(rest)?);
    let group = read_name(alloc, second)?;
    at_end(rest)?;
    Ok(Line::Pass(Pass { word, group }))
}

fn read_rule(alloc: Global, rest: Option<&[u8]>) -> Result<Line, Misread>
    ensures { Gives line_of result (rule_in (option_copied rest.entry)) }
{
    let (first, rest) = cut(next(rest)?);
    let room = read_place(alloc, first)?;
    let (second, rest) = cut(next(rest)?);
    let group = read_place(alloc, second)?;
    let (third, rest) = cut(next(rest)?);
    let level = read_level(third)?;
    at_end(rest)?;
    Ok(Line::Rule(Rule { room, group, level }))
}
