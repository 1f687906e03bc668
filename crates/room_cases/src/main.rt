//! Runs cases: reads them from standard input, a line each, and writes each with what comes of it.
#![tactic(auto)]

mod accesses;
mod entries;
mod histories;
mod ids;
mod messages;
mod presences;
mod values;
mod wire;

use room_case_text::{Broken, cut, is_case, said};
use std::alloc::Global;

/// What comes of a case.
fn outcome(alloc: Global, case: &str) -> Result<String, Broken> {
    let (subject, rest) = cut(case);
    let (verb, rest) = cut(rest);
    match subject {
        "value" => values::outcome(alloc, verb, rest),
        "id" => ids::outcome(alloc, verb, rest),
        "position" => ids::position(alloc, verb, rest),
        "op" => wire::outcome(alloc, verb, rest),
        "frame" => messages::outcome(alloc, verb, rest),
        "entry" => entries::outcome(alloc, verb, rest),
        "history" => histories::left_by(alloc, verb),
        "presence" => presences::left_by(alloc, rest),
        "access" => accesses::outcome(alloc, verb, rest),
        _ => Err(Broken::Verb),
    }
}

/// The line that is written of a line: a case with what comes of it, and blank lines and comments as they are.
fn report(alloc: Global, line: &str) -> Result<String, Broken> {
    if is_case(line) {
        said(alloc, line, outcome(alloc, line))
    } else {
        Ok(format!(in alloc; "{line}")?)
    }
}

fn main(rt: HostRuntime) -> anyhow::Result<()> {
    for line in rt.lines(rt.alloc()) {
        let text = report(rt.alloc(), line?.as_str())?;
        println!(rt; "{text}")?;
    }
    Ok(())
}
