//! Each call of the disk fails, or is the stop, one a run.
use crate::args::{cut, number, way};
use crate::broken::Broken;
use crate::files::Files;
use crate::life::live;
use crate::runs::Runs;
use room_disk::Stop;
use std::alloc::Global;

/// The steps on a disk whose call of that number fails; and, where no call fails, what is recovered.
fn failed(alloc: Global, files: &Files, number: u64, steps: &str) -> Result<String, Broken> {
    let mut disk = files.disk(alloc)?;
    disk.fail(number);
    let before = live(alloc, &mut disk, steps)?;
    disk.lift();
    let behind = live(alloc, &mut disk, "show")?;
    Ok(format!(in alloc; "{before} | {behind}")?)
}

/// The same for each number from 1 to a last one.
pub(crate) fn fails(alloc: Global, line: &str) -> Result<String, Broken> {
    let (last, rest) = cut(line, ' ');
    let last = number(last)?;
    let (files, steps) = Files::read(alloc, rest)?;
    let mut runs = Runs::new(alloc);
    for number in 1..=last {
        let text = failed(alloc, &files, number, steps)?;
        runs.add(alloc, number, text)?;
    }
    runs.end(alloc)
}

/// The steps on a disk whose write, cut or sync of that number is the stop; and what is recovered behind it.
fn stopped(
    alloc: Global,
    files: &Files,
    number: u64,
    how: Stop,
    steps: &str,
) -> Result<String, Broken> {
    let mut disk = files.disk(alloc)?;
    disk.stop(number, how);
    let before = live(alloc, &mut disk, steps)?;
    disk.settle()?;
    let behind = live(alloc, &mut disk, "show")?;
    Ok(format!(in alloc; "{before} | {behind}")?)
}

/// The same for each number from 1 to a last one.
pub(crate) fn stops(alloc: Global, line: &str) -> Result<String, Broken> {
    let (how, rest) = cut(line, ' ');
    let (last, rest) = cut(rest, ' ');
    let how = way(how)?;
    let last = number(last)?;
    let (files, steps) = Files::read(alloc, rest)?;
    let mut runs = Runs::new(alloc);
    for number in 1..=last {
        let text = stopped(alloc, &files, number, how, steps)?;
        runs.add(alloc, number, text)?;
    }
    runs.end(alloc)
}
