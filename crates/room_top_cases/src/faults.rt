//! Each call of the source, the sink or the disk fails, or is the stop, one a run.
use crate::args::{cut, number, way};
use crate::broken::Broken;
use crate::calls::{call, shown, simply};
use crate::edges::{WHOLE, Way};
use crate::runs::Runs;
use room_case_disk::CaseDisk;
use room_disk::Stop;
use std::alloc::Global;

/// What is to fail.
#[derive(Clone, Copy)]
pub(crate) enum Part {
    Source(usize),
    Sink(usize),
    Disk,
    Stop(Stop),
}

/// A run over an empty disk whose call of that number fails; and, where no call fails, what is recovered then.
fn on_disk(alloc: Global, number: u64, words: &str, input: &[u8]) -> Result<String, Broken> {
    let mut disk = CaseDisk::new(alloc);
    disk.fail(number);
    let came = simply(alloc, &mut disk, words, input)?.brief(alloc)?;
    disk.lift();
    let behind = shown(alloc, &mut disk)?;
    Ok(format!(in alloc; "{came} | {behind}")?)
}

/// A run over an empty disk whose write, cut or sync of that number is the stop; and what is recovered behind it.
fn on_stop(
    alloc: Global,
    number: u64,
    how: Stop,
    words: &str,
    input: &[u8],
) -> Result<String, Broken> {
    let mut disk = CaseDisk::new(alloc);
    disk.stop(number, how);
    let came = simply(alloc, &mut disk, words, input)?.brief(alloc)?;
    disk.settle()?;
    let behind = shown(alloc, &mut disk)?;
    Ok(format!(in alloc; "{came} | {behind}")?)
}

/// A run over an empty disk, with a source and a sink of these ways.
fn on_edges(
    alloc: Global,
    words: &str,
    input: &[u8],
    reads: Way,
    writes: Way,
) -> Result<String, Broken> {
    let mut disk = CaseDisk::new(alloc);
    call(alloc, &mut disk, words, input, reads, writes)?.brief(alloc)
}

fn one(
    alloc: Global,
    part: Part,
    number: u64,
    words: &str,
    input: &[u8],
) -> Result<String, Broken> {
    let fails = number;
    match part {
        Part::Source(piece) => on_edges(alloc, words, input, Way { piece, fails }, WHOLE),
        Part::Sink(piece) => on_edges(alloc, words, input, WHOLE, Way { piece, fails }),
        Part::Disk => on_disk(alloc, number, words, input),
        Part::Stop(how) => on_stop(alloc, number, how, words, input),
    }
}

/// What comes of it for each number from 1 to a last one, a line each.
fn each(alloc: Global, part: Part, last: u64, words: &str, input: &[u8]) -> Result<String, Broken> {
    let mut runs = Runs::new(alloc);
    for number in 1..=last {
        let text = one(alloc, part, number, words, input)?;
        runs.add(alloc, number, text)?;
    }
    runs.end(alloc)
}

/// `source PIECE LAST WORDS`, `sink PIECE LAST WORDS`, `disk LAST WORDS`, or `stop HOW LAST WORDS`.
pub(crate) fn fails(alloc: Global, line: &str, input: &[u8]) -> Result<String, Broken> {
    let (name, rest) = cut(line);
    let (part, rest) = match name {
        "disk" => (Part::Disk, rest),
        "source" => {
            let (piece, rest) = cut(rest);
            (Part::Source(number(piece)? as usize), rest)
        },
        "sink" => {
            let (piece, rest) = cut(rest);
            (Part::Sink(number(piece)? as usize), rest)
        },
        "stop" => {
            let (how, rest) = cut(rest);
            (Part::Stop(way(how)?), rest)
        },
        _ => return Err(Broken::Verb),
    };
    let (last, words) = cut(rest);
    each(alloc, part, number(last)?, words, input)
}
