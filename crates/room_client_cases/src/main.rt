//! Runs cases of a client: reads them from standard input, a line each, and writes each with what comes of it.
#![tactic(auto)]

mod args;
mod broken;
mod calls;
mod refusals;
mod taking;
mod texts;

use args::{cut, expanded};
use broken::Broken;
use room_client::Client;
use room_json::Text;
use room_tree::PlainTree;
use std::alloc::Global;

/// A new client of a room takes the place of the other.
fn renewed(alloc: Global, c: &mut Client<PlainTree>, room: &Text) -> Result<String, Broken> {
    *c = Client::new(alloc, room)?;
    Ok(format!(in alloc; "ok")?)
}

/// What comes of a line of a script, a frame, or a new client.
fn on_client(alloc: Global, c: &mut Client<PlainTree>, line: &str) -> Result<String, Broken> {
    let (name, rest) = cut(line);
    match name {
        "new" => renewed(alloc, c, &Text::from_str(alloc, rest)?),
        "frame" => taking::outcome(alloc, c, &Text::from_str(alloc, rest)?),
        _ => calls::outcome(alloc, c, line.as_bytes()),
    }
}

/// What comes of a case.
fn outcome(alloc: Global, c: &mut Client<PlainTree>, case: &str) -> Result<String, Broken> {
    let (name, rest) = cut(case);
    match name {
        "many" => on_client(alloc, c, expanded(alloc, rest)?.as_str()),
        _ => on_client(alloc, c, case),
    }
}

/// The line that is written of a line: a case with what comes of it, and blank lines and comments as they are.
fn report(alloc: Global, c: &mut Client<PlainTree>, line: &str) -> Result<String, Broken> {
    if line.is_empty() || line.starts_with('#') {
        return Ok(format!(in alloc; "{line}")?);
    }
    match outcome(alloc, c, line) {
        Ok(text) => Ok(format!(in alloc; "{line} => {text}")?),
        Err(Broken::Memory) => Err(Broken::Memory),
        Err(broken) => Ok(format!(in alloc; "{line} => {broken}")?),
    }
}

fn main(rt: HostRuntime) -> anyhow::Result<()> {
    let room = Text::from_str(rt.alloc(), "room")?;
    let mut client = Client::new(rt.alloc(), &room)?;
    for line in rt.lines(rt.alloc()) {
        let text = report(rt.alloc(), &mut client, line?.as_str())?;
        println!(rt; "{text}")?;
    }
    Ok(())
}
