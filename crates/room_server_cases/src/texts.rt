//! What is written of a call: sends and closes, faults, and what a server holds.
use crate::broken::Broken;
use room_json::Text;
use room_server::{Out, Outs, Server};
use room_tree::{PlainTree, Tree};
use std::alloc::Global;

/// The most bytes of a text that is shown whole.
const MOST: u64 = 600;

/// How many connections cases name.
const CONNECTIONS: u64 = 9;

/// The bytes as digits of base 31, modulo 2^32.
fn sum(bytes: &[u8]) -> u32 {
    let mut sum = 0u32;
    for byte in bytes {
        sum = sum.wrapping_mul(31).wrapping_add(*byte as u32);
    }
    sum
}

/// A text; of a long one how long it is, and the sum of its bytes.
fn shown(alloc: Global, text: &Text) -> Result<String, Broken> {
    let length = text.len();
    if length > MOST {
        let sum = sum(text.as_bytes());
        return Ok(format!(in alloc; "{length} bytes, sum {sum}")?);
    }
    Ok(format!(in alloc; "{}", text.as_str())?)
}

fn out_shown(alloc: Global, out: &Out) -> Result<String, Broken> {
    match out {
        Out::Send(conn, text) => {
            let text = shown(alloc, text)?;
            Ok(format!(in alloc; "to {conn} {text}")?)
        },
        Out::Close(conn, code, text) => {
            Ok(format!(in alloc; "close {conn} {code} {}", text.as_str())?)
        },
    }
}

/// Sends and closes in their order, or that there is none.
pub(crate) fn all_shown(alloc: Global, outs: &Outs) -> Result<String, Broken> {
    let mut all = String::new(alloc);
    for out in outs.as_slice() {
        if !all.is_empty() {
            all.push_str("; ")?;
        }
        all.push_str(out_shown(alloc, out)?.as_str())?;
    }
    if all.is_empty() {
        all.push_str("none")?;
    }
    Ok(all)
}

/// Puts sends and closes behind a log, each in full.
pub(crate) fn log(alloc: Global, log: &mut String, outs: &Outs) -> Result<(), Broken> {
    for out in outs.as_slice() {
        let line = match out {
            Out::Send(conn, text) => format!(in alloc; "to {} {}\n", conn, text.as_str())?,
            Out::Close(conn, code, text) => {
                format!(in alloc; "close {} {} {}\n", conn, code, text.as_str())?
            },
        };
        log.push_str(line.as_str())?;
    }
    Ok(())
}

/// The sessions with their last clocks and names.
fn sessions(alloc: Global, server: &Server<PlainTree>) -> Result<String, Broken> {
    let mut all = String::new(alloc);
    let store = server.store();
    for actor in 1..=store.sessions() {
        let name = match store.name_of(actor) {
            Some(name) => name.as_str(),
            None => "",
        };
        let one = format!(in alloc; " {}:{}", store.last_of(actor), name)?;
        all.push_str(one.as_str())?;
    }
    Ok(all)
}

/// The connections that are attached, of those that cases name.
fn connections(alloc: Global, server: &Server<PlainTree>) -> Result<String, Broken> {
    let mut all = String::new(alloc);
    for conn in 0..=CONNECTIONS {
        if server.is_attached(conn) {
            all.push_str(format!(in alloc; " {conn}")?.as_str())?;
        }
    }
    Ok(all)
}

/// How many updates and nodes a server has, its sessions, and the connections that are attached.
pub(crate) fn held(alloc: Global, server: &Server<PlainTree>) -> Result<String, Broken> {
    let updates = server.store().count();
    let nodes = server.store().tree().count();
    let sessions = sessions(alloc, server)?;
    let attached = connections(alloc, server)?;
    Ok(format!(in alloc;
        "updates {updates}, nodes {nodes}, sessions{sessions}, attached{attached}"
    )?)
}
