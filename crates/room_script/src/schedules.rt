//! The lines of a schedule, as text.
ghost use Rattle.std.specs.Prelude.{◌≡◌, option_map, codes};
ghost use Rattle.std.specs.Option.{option_copied};
ghost use Rattle.std.specs.Str.{bytes_eq};
ghost use Rattle.room_model.specs.Lines.{OfConnection, Up, Down, Gone, Drain};
ghost use Rattle.room_script.specs.Words.{ended, number_then};
ghost use Rattle.room_script.specs.Grammar.{brief_named, client_line, client_then, how_in, fuse_in, limit_in};
ghost use Rattle.room_script.specs.Grammar.{is_server, raw_in, asked_named, server_named, line_named, schedule_line};
ghost use Rattle.room_script.specs.Giving.{Gives};
ghost use Rattle.room_script.specs.Told.{Scheduled, told_of, asked, how_of};

use crate::calls::{read_call, read_question};
use crate::fault::Misread;
use crate::lines::{How, Line, Spot};
use crate::numbers::{read_number, read_number_from};
use crate::words::{at_end, cut, last_text, next};
use room_json::MAX_WHOLE;
use std::alloc::Global;

/// A line of a schedule.
pub(crate) fn read_schedule_line(alloc: Global, line: &[u8]) -> Result<Line, Misread>
    ensures { Gives told_of result (option_map Scheduled (schedule_line line.now)) }
{
    let (name, rest) = cut(line);
    line_by_name(alloc, name, rest)
}

/// A line by its name and what is left behind it.
fn line_by_name(alloc: Global, name: &[u8], rest: Option<&[u8]>) -> Result<Line, Misread>
    ensures { Gives told_of result (option_map Scheduled (line_named name.now (option_copied rest.entry))) }
{
    if name == b"up".as_slice() {
        let conn = last_number(rest)?;
        Ok(Line::Up(conn))
    } else if name == b"down".as_slice() {
        let conn = last_number(rest)?;
        Ok(Line::Down(conn))
    } else if name == b"gone".as_slice() {
        let conn = last_number(rest)?;
        Ok(Line::Gone(conn))
    } else if name == b"raw".as_slice() {
        read_raw(alloc, rest)
    } else if name == b"drain".as_slice() {
        let frames = last_number(rest)?;
        Ok(Line::Drain(frames))
    } else if name == b"link".as_slice() {
        at_end(rest)?;
        Ok(Line::Link)
    } else {
        server_line_by_name(alloc, name, rest)
    }
}

/// A number at the line's end.
fn last_number(rest: Option<&[u8]>) -> Result<u64, Misread>
    ensures { Gives (λ n. n) result (number_then (λ n r. ended n r) (option_copied rest.entry)) }
{
    let (word, rest) = cut(next(rest)?);
    let number = read_number(word, u64::MAX)?;
    at_end(rest)?;
    Ok(number)
}

fn read_raw(alloc: Global, rest: Option<&[u8]>) -> Result<Line, Misread>
    ensures { Gives told_of result (option_map Scheduled (raw_in (option_copied rest.entry))) }
{
    let (word, rest) = cut(next(rest)?);
    let conn = read_number(word, u64::MAX)?;
    let text = last_text(alloc, rest)?;
    Ok(Line::Raw(conn, text))
}

/// A line that isn't of a connection.
fn server_line_by_name(alloc: Global, name: &[u8], rest: Option<&[u8]>) -> Result<Line, Misread>
    ensures { Gives told_of result (option_map Scheduled (server_named name.now (option_copied rest.entry))) }
{
    if name == b"stop".as_slice() {
        at_end(rest)?;
        Ok(Line::Stop)
    } else if name == b"start".as_slice() {
        at_end(rest)?;
        Ok(Line::Start)
    } else if name == b"fuse".as_slice() {
        read_fuse(rest)
    } else if name == b"compact".as_slice() {
        at_end(rest)?;
        Ok(Line::Compact)
    } else if name == b"limit".as_slice() {
        read_limit(rest)
    } else {
        asked_line_by_name(alloc, name, rest)
    }
}

fn read_fuse(rest: Option<&[u8]>) -> Result<Line, Misread>
    ensures { Gives told_of result (option_map Scheduled (fuse_in (option_copied rest.entry))) }
{
    let (word, rest) = cut(next(rest)?);
    let calls = read_number_from(word, 1, u64::MAX)?;
    let (word, rest) = cut(next(rest)?);
    let how = read_how(word)?;
    at_end(rest)?;
    Ok(Line::Fuse(calls, how))
}

fn read_how(word: &[u8]) -> Result<How, Misread>
    ensures { Gives how_of result (how_in word.now) }
{
    if word == b"old".as_slice() {
        Ok(How::Old)
    } else if word == b"new".as_slice() {
        Ok(How::New)
    } else if word == b"torn".as_slice() {
        Ok(How::Torn)
    } else {
        Err(Misread::Outside)
    }
}

fn read_limit(rest: Option<&[u8]>) -> Result<Line, Misread>
    ensures { Gives told_of result (option_map Scheduled (limit_in (option_copied rest.entry))) }
{
    let (word, rest) = cut(next(rest)?);
    let updates = read_number(word, MAX_WHOLE)?;
    let (word, rest) = cut(next(rest)?);
    let sessions = read_number(word, u64::from(u32::MAX))?;
    at_end(rest)?;
    Ok(Line::Limit(updates, sessions as u32))
}

/// A line that asks for the server, or one of a client.
fn asked_line_by_name(alloc: Global, name: &[u8], rest: Option<&[u8]>) -> Result<Line, Misread>
    ensures { Gives told_of result (option_map Scheduled (asked_named name.now (option_copied rest.entry))) }
{
    if name == b"show".as_slice() && is_server(rest) {
        Ok(Line::Show(Spot::Server))
    } else if name == b"brief".as_slice() && is_server(rest) {
        Ok(Line::Brief(Spot::Server))
    } else {
        read_client_line(alloc, name, rest)
    }
}

fn is_server(rest: Option<&[u8]>) -> bool
    ensures { result ≡ is_server (option_copied rest.entry) }
{
    match rest {
        Some(words) => words == b"server".as_slice(),
        None => false,
    }
}

fn read_client_line(alloc: Global, name: &[u8], rest: Option<&[u8]>) -> Result<Line, Misread>
    ensures { Gives told_of result
        (option_map Scheduled (client_then (λ c r. client_line name.now c r) (option_copied rest.entry))) }
{
    let (word, rest) = cut(next(rest)?);
    let client = read_number_from(word, 1, 64)?;
    line_of_client(alloc, client as u32, name, rest)
}

/// A call of the client, or a question.
fn line_of_client(
    alloc: Global,
    client: u32,
    name: &[u8],
    rest: Option<&[u8]>,
) -> Result<Line, Misread>
    ensures { Gives told_of result (option_map Scheduled (client_line name.now client (option_copied rest.entry))) }
{
    match read_call(alloc, client, name, rest) {
        Ok(line) => Ok(line),
        Err(Misread::Memory) => Err(Misread::Memory),
        Err(Misread::Outside) => read_brief_or_question(client, name, rest),
    }
}

fn read_brief_or_question(client: u32, name: &[u8], rest: Option<&[u8]>) -> Result<Line, Misread>
    ensures { Gives told_of result (option_map (asked client) (brief_named name.now (option_copied rest.entry))) }
{
    if name == b"brief".as_slice() {
        at_end(rest)?;
        Ok(Line::Brief(Spot::Client(client)))
    } else {
        read_question(client, name, rest)
    }
}
