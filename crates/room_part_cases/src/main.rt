//! Runs cases: reads them from standard input, a line each, and writes each with what comes of it.
#![tactic(auto)]

mod args;
mod backs;
mod broken;
mod lists;
mod making;
mod notices;
mod scripts;
mod snapshots;
mod spelling;
mod trees;

use args::cut;
use broken::Broken;
use room_tree::{PlainTree, Tree};
use std::alloc::Global;

/// What comes of a case.
fn outcome(alloc: Global, t: &mut PlainTree, case: &str) -> Result<String, Broken> {
    let (subject, rest) = cut(case);
    let (verb, rest) = cut(rest);
    match subject {
        "script" => scripts::outcome(alloc, verb, rest),
        "snapshot" => snapshots::outcome(alloc, verb, rest),
        _ => on_tree(alloc, t, subject, verb, rest),
    }
}

/// What comes of a case of the tree.
fn on_tree(
    alloc: Global,
    t: &mut PlainTree,
    subject: &str,
    verb: &str,
    rest: &str,
) -> Result<String, Broken> {
    match subject {
        "tree" => trees::outcome(alloc, t, verb, rest),
        "list" => lists::outcome(alloc, t, verb, rest),
        "back" => backs::outcome(alloc, t, verb, rest),
        "notice" => notices::outcome(alloc, t, verb, rest),
        _ => Err(Broken::Verb),
    }
}

/// The line that is written of a line: a case with what comes of it, and blank lines and comments as they are.
fn report(alloc: Global, t: &mut PlainTree, line: &str) -> Result<String, Broken> {
    if line.is_empty() || line.starts_with('#') {
        return Ok(format!(in alloc; "{line}")?);
    }
    match outcome(alloc, t, line) {
        Ok(text) => Ok(format!(in alloc; "{line} => {text}")?),
        Err(Broken::Memory) => Err(Broken::Memory),
        Err(broken) => Ok(format!(in alloc; "{line} => {broken}")?),
    }
}

fn main(rt: HostRuntime) -> anyhow::Result<()> {
    let mut tree = PlainTree::empty(rt.alloc())?;
    for line in rt.lines(rt.alloc()) {
        let text = report(rt.alloc(), &mut tree, line?.as_str())?;
        println!(rt; "{text}")?;
    }
    Ok(())
}
