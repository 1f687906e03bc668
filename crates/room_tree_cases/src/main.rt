//! Runs cases of one tree: reads them from standard input, a line each, and writes each with what comes of it.
#![tactic(auto)]

mod cells;
mod counted;
mod edits;
mod listing;
mod making;
mod pairs;
mod trees;
mod wide;

use room_case_text::{Broken, cut, is_case, said};
use room_tree::{PlainTree, Tree};
use std::alloc::Global;

/// What comes of a case.
fn outcome(alloc: Global, t: &mut PlainTree, case: &str) -> Result<String, Broken> {
    let (subject, rest) = cut(case);
    let (verb, rest) = cut(rest);
    match subject {
        "tree" => trees::outcome(alloc, t, verb, rest),
        "pair" => pairs::outcome(alloc, t, verb, rest),
        "cells" => cells::outcome(alloc, t, verb, rest),
        "edit" => edits::outcome(alloc, t, verb, rest),
        _ => Err(Broken::Verb),
    }
}

/// The line that is written of a line: a case with what comes of it, and blank lines and comments as they are.
fn report(alloc: Global, t: &mut PlainTree, line: &str) -> Result<String, Broken> {
    if is_case(line) {
        said(alloc, line, outcome(alloc, t, line))
    } else {
        Ok(format!(in alloc; "{line}")?)
    }
}

fn main(rt: HostRuntime) -> anyhow::Result<()> {
    let mut tree = PlainTree::empty(rt.alloc())?;
    for line in rt.lines(rt.alloc()) {
        let text = report(rt.alloc(), &mut tree, line?.as_str())?;
        println!(rt; "{text}")?;
    }
    Ok(())
}
