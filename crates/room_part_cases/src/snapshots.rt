//! Cases of `room_snapshot`: states by their bytes.
use crate::args::{bytes, item, items, number_at, text_at, value};
use crate::broken::Broken;
use room_items::read_items;
use room_json::{Bytes, Copied, Json};
use room_snapshot::{Format, Session, Sessions, Snapshot, read_snapshot, write_snapshot};
use room_tree::{PlainTree, Tree};
use std::alloc::Global;

/// What comes of a case of snapshots: of bytes, or of a state.
pub(crate) fn outcome(alloc: Global, verb: &str, rest: &str) -> Result<String, Broken> {
    match verb {
        "write" => written(alloc, &value(alloc, rest)?),
        _ => of_bytes(alloc, verb, bytes(alloc, rest)?.as_slice()),
    }
}

fn of_bytes(alloc: Global, verb: &str, bytes: &[u8]) -> Result<String, Broken> {
    match verb {
        "one" => told_of_old(alloc, bytes),
        "two" => told(alloc, bytes),
        "changed" => spelled_once(alloc, bytes),
        _ => Err(Broken::Verb),
    }
}

fn read(alloc: Global, f: Format, bytes: &[u8]) -> Result<Option<Snapshot<PlainTree>>, Broken> {
    let empty = PlainTree::empty(alloc)?;
    Ok(read_snapshot(alloc, empty, bytes, f)?)
}

/// How many updates, sessions and nodes there are.
fn counted(alloc: Global, s: &Snapshot<PlainTree>) -> Result<String, Broken> {
    let sessions = s.sessions.len();
    let nodes = s.tree.count();
    Ok(format!(in alloc; "{} updates, {sessions} sessions, {nodes} nodes", s.count)?)
}

fn told_of_old(alloc: Global, bytes: &[u8]) -> Result<String, Broken> {
    match read(alloc, Format::One, bytes)? {
        Some(s) => counted(alloc, &s),
        None => Ok(format!(in alloc; "none")?),
    }
}

fn again(alloc: Global, s: &Snapshot<PlainTree>) -> Result<Bytes, Broken> {
    Ok(write_snapshot(alloc, s.count, &s.sessions, &s.tree)?)
}

/// What is read of the bytes, and whether they are written of it.
fn told(alloc: Global, bytes: &[u8]) -> Result<String, Broken> {
    match read(alloc, Format::Two, bytes)? {
        Some(s) if again(alloc, &s)?.as_slice() == bytes => counted(alloc, &s),
        Some(_) => Ok(format!(in alloc; "read, and written in another way")?),
        None => Ok(format!(in alloc; "none")?),
    }
}

/// How many of the fronts of the bytes are a snapshot.
fn fronts(alloc: Global, bytes: &[u8]) -> Result<u64, Broken> {
    let mut count = 0u64;
    for end in 0..bytes.len() {
        if read(alloc, Format::Two, &bytes[..end])?.is_some() {
            count = count.saturating_add(1);
        }
    }
    Ok(count)
}

/// The bytes with one of them changed.
fn changed(alloc: Global, bytes: &[u8], at: usize, byte: u8) -> Result<Vec<u8>, Broken> {
    let mut copy = bytes.to_vec(alloc)?;
    if at < copy.len() {
        copy[at] = byte;
    }
    Ok(copy)
}

/// Whether the bytes are a snapshot that is written in another way.
fn is_twice(alloc: Global, bytes: &[u8]) -> Result<bool, Broken> {
    match read(alloc, Format::Two, bytes)? {
        Some(s) => Ok(again(alloc, &s)?.as_slice() != bytes),
        None => Ok(false),
    }
}

/// How often the bytes, with one changed to this one, are a snapshot that is written in another way.
fn twice(alloc: Global, bytes: &[u8], byte: u8) -> Result<u64, Broken> {
    let mut count = 0u64;
    for at in 0..bytes.len() {
        if is_twice(alloc, changed(alloc, bytes, at, byte)?.as_slice())? {
            count = count.saturating_add(1);
        }
    }
    Ok(count)
}

/// Of the bytes' fronts how many are a snapshot, and with a byte changed to 0, 1 or 255, how many are spelled twice.
fn spelled_once(alloc: Global, bytes: &[u8]) -> Result<String, Broken> {
    let fronts = fronts(alloc, bytes)?;
    let low = twice(alloc, bytes, 0)?;
    let one = twice(alloc, bytes, 1)?;
    let high = twice(alloc, bytes, 255)?;
    Ok(format!(in alloc; "{fronts} fronts, {low} {one} {high} spelled twice")?)
}

fn session(alloc: Global, v: &Json) -> Result<Session, Broken> {
    let key = number_at(v, 0)?;
    let last = number_at(v, 1)?;
    let name = text_at(v, 2)?.copy(alloc)?;
    Ok(Session { key, last, name })
}

fn sessions(alloc: Global, v: &Json) -> Result<Sessions, Broken> {
    let mut all = Sessions::new(alloc);
    for one in items(v)?.as_slice() {
        all.push(session(alloc, one)?)?;
    }
    Ok(all)
}

/// The bytes of a state: the number of updates, the sessions with key, last clock and name, and the items.
fn written(alloc: Global, v: &Json) -> Result<String, Broken> {
    let count = number_at(v, 0)?;
    let sessions = sessions(alloc, item(v, 1)?)?;
    let into = PlainTree::empty(alloc)?;
    let Some(t) = read_items(alloc, into, items(item(v, 2)?)?)? else {
        return Err(Broken::Tree);
    };
    let bytes = write_snapshot(alloc, count, &sessions, &t)?;
    Ok(hex::encode(alloc, bytes.as_slice())?)
}
