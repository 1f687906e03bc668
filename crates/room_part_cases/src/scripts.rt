//! Cases of `room_script`: schedules and scripts as they are read, and the schedules that numbers stand for.
use crate::args::{bytes, cut, number, text, value};
use crate::broken::Broken;
use room_json::Json;
use room_script::{Line, Schedule, ScriptFault, Spot, read_schedule, read_script, schedule_of};
use std::alloc::Global;

/// What comes of a case of texts: a JSON text, bytes, or a number and a count.
pub(crate) fn outcome(alloc: Global, verb: &str, rest: &str) -> Result<String, Broken> {
    match verb {
        "schedule" => of_schedule(alloc, &value(alloc, rest)?),
        "script" => of_script(alloc, &value(alloc, rest)?),
        "bytes" => of_bytes(alloc, rest),
        "made" => made(alloc, rest),
        "front" => front(alloc, rest),
        _ => Err(Broken::Verb),
    }
}

fn of_schedule(alloc: Global, v: &Json) -> Result<String, Broken> {
    let bytes = text(v)?.as_bytes();
    told(alloc, read_schedule(alloc, bytes))
}

fn of_script(alloc: Global, v: &Json) -> Result<String, Broken> {
    let bytes = text(v)?.as_bytes();
    told(alloc, read_script(alloc, bytes))
}

fn of_bytes(alloc: Global, words: &str) -> Result<String, Broken> {
    let bytes = bytes(alloc, words)?;
    told(alloc, read_schedule(alloc, bytes.as_slice()))
}

/// How many lines were read, and each with its number; or the first bad one.
fn told(alloc: Global, found: Result<Schedule, ScriptFault>) -> Result<String, Broken> {
    match found {
        Ok(lines) => lines_told(alloc, lines.as_slice()),
        Err(ScriptFault::Memory) => Err(Broken::Memory),
        Err(ScriptFault::BadLine(number)) => Ok(format!(in alloc; "bad {number}")?),
    }
}

fn lines_told(alloc: Global, lines: &[(u64, Line)]) -> Result<String, Broken> {
    let mut out = format!(in alloc; "ok {}", lines.len())?;
    for line in lines {
        out.push_str(format!(in alloc; ", {} {}", line.0, name(&line.1))?.as_str())?;
    }
    Ok(out)
}

fn spot(spot: Spot, client: &'static str, server: &'static str) -> &'static str {
    match spot {
        Spot::Client(_) => client,
        Spot::Server => server,
    }
}

/// What a line is.
fn name(line: &Line) -> &'static str {
    match line {
        Line::Dial(_) => "dial",
        Line::Edit(_, _) => "edit",
        Line::Begin(_) => "begin",
        Line::End(_) => "end",
        Line::Undo(_) => "undo",
        Line::Redo(_) => "redo",
        Line::Pause(_) => "pause",
        Line::Resume(_) => "resume",
        Line::Clear(_) => "clear",
        Line::Presence {
            client: _,
            patch: _,
            in_history: true,
        } => "presence+",
        Line::Presence {
            client: _,
            patch: _,
            in_history: false,
        } => "presence",
        Line::Event(_, _) => "event",
        _ => carried(line),
    }
}

/// What a line of frames, or of the server, is.
fn carried(line: &Line) -> &'static str {
    match line {
        Line::Flush(_) => "flush",
        Line::Resend(_) => "resend",
        Line::Up(_) => "up",
        Line::Down(_) => "down",
        Line::Drain(_) => "drain",
        Line::Cut(_) => "cut",
        Line::Gone(_) => "gone",
        Line::Stop => "stop",
        Line::Start => "start",
        Line::Fuse(_, _) => "fuse",
        Line::Compact => "compact",
        Line::Limit(_, _) => "limit",
        Line::Link => "link",
        Line::Raw(_, _) => "raw",
        _ => reported(line),
    }
}

/// What a line of a report is.
fn reported(line: &Line) -> &'static str {
    match line {
        Line::Show(of) => spot(*of, "show", "show server"),
        Line::Brief(of) => spot(*of, "brief", "brief server"),
        Line::Others(_) => "others",
        Line::History(_) => "history",
        Line::Notices(_) => "notices",
        Line::Take(_, _) => "take",
        _ => "another",
    }
}

/// The number that a word spells; `max` is the greatest of 64 bits.
fn word_number(word: &str) -> Result<u64, Broken> {
    if word == "max" {
        return Ok(u64::MAX);
    }
    number(word)
}

/// The bytes as digits of base 31, modulo 2^32.
fn sum(bytes: &[u8]) -> u32 {
    let mut sum = 0u32;
    for byte in bytes {
        sum = sum.wrapping_mul(31).wrapping_add(*byte as u32);
    }
    sum
}

/// How long the schedule of a number and a count is, a sum of its bytes, and whether it is read.
fn made(alloc: Global, words: &str) -> Result<String, Broken> {
    let (seed, count) = cut(words);
    let seed = word_number(seed)?;
    let count = word_number(count)?;
    let text = schedule_of(alloc, seed, count)?;
    let length = text.len();
    let sum = sum(text.as_slice());
    let reads = read_schedule(alloc, text.as_slice()).is_ok();
    Ok(format!(in alloc; "{length} bytes, sum {sum}, read: {reads}")?)
}

/// So many bytes of the schedule of a number and 400, line feeds as `|`.
fn front(alloc: Global, words: &str) -> Result<String, Broken> {
    let (seed, count) = cut(words);
    let seed = word_number(seed)?;
    let count = word_number(count)?;
    let text = schedule_of(alloc, seed, 400)?;
    let mut out = String::new(alloc);
    for byte in text.as_slice() {
        if out.len() as u64 >= count {
            break;
        }
        push_byte(&mut out, *byte)?;
    }
    Ok(out)
}

fn push_byte(out: &mut String, byte: u8) -> Result<(), Broken> {
    if byte == b'\n' {
        out.push('|')?;
    } else {
        out.push(byte as char)?;
    }
    Ok(())
}
