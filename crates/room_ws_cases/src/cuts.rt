//! Cases of bytes that come in two parts, cut in every place.
use crate::args::bytes;
use crate::broken::Broken;
use crate::heads::REQUEST;
use crate::hubs::events;
use crate::scene::MemHub;
use crate::wire::Wire;
use room_edge::MemSource;
use room_json::Bytes;
use room_ws::{MemListen, Side, WsHub};
use std::alloc::Global;
use std::cell::RefCell;
use std::collections::VecDeque;
use std::rc::Rc;

/// What is cut.
#[derive(Clone, Copy)]
enum Whole {
    Frame,
    Request,
}

/// What comes of a frame that is cut in every place behind a request, or that stands behind a request that is: once,
/// where it is the same for all places, and else at the first place where it differs.
pub(crate) fn outcome(alloc: Global, verb: &str, rest: &str) -> Result<String, Broken> {
    let frame = bytes(alloc, rest)?;
    match verb {
        "frame" => at_each(alloc, Whole::Frame, frame.as_slice(), frame.len()),
        "request" => at_each(alloc, Whole::Request, frame.as_slice(), REQUEST.len()),
        _ => Err(Broken::Verb),
    }
}

fn at_each(alloc: Global, whole: Whole, frame: &[u8], length: usize) -> Result<String, Broken> {
    let first = at_place(alloc, whole, frame, 1)?;
    for at in 2..length {
        let told = at_place(alloc, whole, frame, at)?;
        if told != first {
            return Ok(format!(in alloc; "at {at}: {told}")?);
        }
    }
    Ok(format!(in alloc; "up to {length}: {first}")?)
}

/// What a server's hub tells of a stream that is cut there.
fn at_place(alloc: Global, whole: Whole, frame: &[u8], at: usize) -> Result<String, Broken> {
    let wire = match whole {
        Whole::Frame => frame_cut(alloc, frame, at)?,
        Whole::Request => request_cut(alloc, frame, at)?,
    };
    let mut hub = hub_of(alloc, wire)?;
    events(alloc, &mut hub, 3)
}

fn bare(alloc: Global) -> Result<Wire, Broken> {
    let written = Rc::new(alloc, RefCell::new(Vec::new(alloc)))?;
    Ok(Wire::new(alloc, u64::MAX, written))
}

/// A request, and a frame of which the part behind the place comes one read later.
fn frame_cut(alloc: Global, frame: &[u8], at: usize) -> Result<Wire, Broken> {
    let (front, back) = frame.split_at(at.min(frame.len()));
    let mut wire = bare(alloc)?;
    wire.push(alloc, REQUEST)?;
    wire.push(alloc, front)?;
    wire.push(alloc, b"")?;
    wire.push(alloc, back)?;
    Ok(wire)
}

/// A request in two parts, and a frame.
fn request_cut(alloc: Global, frame: &[u8], at: usize) -> Result<Wire, Broken> {
    let (front, back) = REQUEST.split_at(at.min(REQUEST.len()));
    let mut wire = bare(alloc)?;
    wire.push(alloc, front)?;
    wire.push(alloc, back)?;
    wire.push(alloc, frame)?;
    wire.push(alloc, b"")?;
    Ok(wire)
}

/// A server's hub over one stream.
fn hub_of(alloc: Global, wire: Wire) -> Result<MemHub, Broken> {
    let mut streams = VecDeque::new(alloc);
    streams.push_back(wire)?;
    let keys = Bytes::from_vec(Vec::from_slice(alloc, &[0, 0, 0, 0, 0, 0, 0, 7])?);
    let source = MemSource::new(keys, Vec::new(alloc));
    Ok(WsHub::new(alloc, MemListen::new(streams), source, Side::Server)?)
}
