//! Runs cases of a store: reads them from standard input, a line each, and writes each with what comes of it.
#![tactic(auto)]

mod args;
mod broken;
mod faults;
mod files;
mod life;
mod making;
mod runs;
mod telling;

use args::cut;
use broken::Broken;
use std::alloc::Global;

/// What comes of a case.
fn outcome(alloc: Global, case: &str) -> Result<String, Broken> {
    let (subject, rest) = cut(case, ' ');
    match subject {
        "life" => files::lived(alloc, rest),
        "fails" => faults::fails(alloc, rest),
        "stops" => faults::stops(alloc, rest),
        "lengths" => files::cut_short(alloc, rest),
        "bytes" => files::changed(alloc, rest),
        _ => Err(Broken::Verb),
    }
}

/// The line that is written of a line: a case with what comes of it, and blank lines and comments as they are.
fn report(alloc: Global, line: &str) -> Result<String, Broken> {
    if line.is_empty() || line.starts_with('#') {
        return Ok(format!(in alloc; "{line}")?);
    }
    match outcome(alloc, line) {
        Ok(text) => Ok(format!(in alloc; "{line} => {text}")?),
        Err(Broken::Memory) => Err(Broken::Memory),
        Err(broken) => Ok(format!(in alloc; "{line} => {broken}")?),
    }
}

fn main(rt: HostRuntime) -> anyhow::Result<()> {
    for line in rt.lines(rt.alloc()) {
        let text = report(rt.alloc(), line?.as_str())?;
        println!(rt; "{text}")?;
    }
    Ok(())
}
