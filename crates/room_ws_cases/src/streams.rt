//! Cases of `room_real`'s streams: readers and writers in memory, random bytes, and sockets over loopback.
use crate::args::{bytes, number, text};
use crate::broken::Broken;
use crate::heads::REQUEST;
use crate::hubs::events;
use room_edge::{Sink, SinkFault, Source};
use room_hub::Hub;
use room_real::{RandomBytes, Reading, TcpDials, TcpPeers, Writing};
use room_ws::{Listen, Side, WsHub};
use std::alloc::Global;
use std::io::Write;
use std::net::TcpStream;

/// A frame with the text `Hello`, masked.
const HELLO: &[u8] = b"\x81\x85\x37\xfa\x21\x3d\x7f\x9f\x4d\x51\x58";

/// What comes of a case of streams.
pub(crate) fn outcome(rt: &HostRuntime, verb: &str, rest: &str) -> Result<String, Broken> {
    let alloc = rt.alloc();
    match verb {
        "read" => reads(alloc, bytes(alloc, rest)?.as_slice()),
        "write" => writes(alloc, number(rest)?),
        "random" => random(rt),
        "loopback" => loopback(rt),
        _ => Err(Broken::Verb),
    }
}

/// How many bytes a source over these gives, by reads of at most eight, up to the first zero.
fn reads(alloc: Global, bytes: &[u8]) -> Result<String, Broken> {
    let mut source = Reading::new(bytes);
    let mut into = [0u8; 8];
    let mut told = String::new(alloc);
    for _read in 0..bytes.len().saturating_add(1) {
        let Ok(count) = source.read(&mut into) else {
            return Ok(String::from_str(alloc, "failed")?);
        };
        told.push_str(format!(in alloc; "{count};")?.as_str())?;
        if count == 0 {
            break;
        }
    }
    Ok(told)
}

/// How many of three bytes a sink with this much room takes, at each of two writes.
fn writes(alloc: Global, room: u64) -> Result<String, Broken> {
    let mut bytes = [0u8; 8];
    let Ok(room) = usize::try_from(room.min(8)) else {
        return Err(Broken::Number);
    };
    let mut sink = Writing::new(&mut bytes[..room]);
    let first = taken(alloc, sink.write(b"abc"))?;
    let second = taken(alloc, sink.write(b"abc"))?;
    Ok(format!(in alloc; "{first} {second}")?)
}

fn taken(alloc: Global, answer: Result<usize, SinkFault>) -> Result<String, Broken> {
    match answer {
        Ok(count) => Ok(format!(in alloc; "{count}")?),
        Err(_) => Ok(String::from_str(alloc, "failed")?),
    }
}

/// How many random bytes a read of eight gives.
fn random(rt: &HostRuntime) -> Result<String, Broken> {
    let mut key = [0u8; 8];
    match RandomBytes::new(rt).read(&mut key) {
        Ok(count) => Ok(format!(in rt.alloc(); "{count}")?),
        Err(_) => Ok(String::from_str(rt.alloc(), "failed")?),
    }
}

/// What a hub over sockets tells of a plain peer that has written its request and a frame, and what it answers.
fn loopback(rt: &HostRuntime) -> Result<String, Broken> {
    let alloc = rt.alloc();
    let mut peers = TcpPeers::new(alloc, rt, text(alloc, "127.0.0.1:0")?);
    let Ok(port) = peers.port() else {
        return Err(Broken::System);
    };
    let address = text(alloc, format!(in alloc; "127.0.0.1:{port}")?.as_str())?;
    let mut plain = TcpStream::connect(rt, address.as_str())?;
    plain.write_all(REQUEST)?;
    plain.write_all(HELLO)?;
    let keys = Reading::new(&b"\0\0\0\0\0\0\0\x07"[..]);
    let mut hub = WsHub::new(alloc, peers, keys, Side::Server)?;
    let told = events(alloc, &mut hub, 2)?;
    let sent = hub.send(1, &text(alloc, "hi")?).is_ok();
    let later = events(alloc, &mut hub, 1)?;
    let dialled = matches!(TcpDials::new(rt, address).accept(), Ok(Some(_)));
    Ok(format!(in alloc; "{told}, sent {sent}, {later}, dialled {dialled}")?)
}
