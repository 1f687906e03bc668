//! Cases of `room_msg`: frames of both sides.
use crate::values::nested;
use room_case_text::{Broken, number, number_at, text_at, value};
use room_json::{Copied, Json, NoMemory, Text};
use room_msg::{
    ClientFrame, MsgFault, ServerFrame, read_client, read_server, write_client, write_server,
};
use std::alloc::Global;

/// What comes of a case of frames.
pub(crate) fn outcome(alloc: Global, verb: &str, rest: &str) -> Result<String, Broken> {
    match verb {
        "client" => of_client(alloc, &Text::from_str(alloc, rest)?),
        "server" => of_server(alloc, &Text::from_str(alloc, rest)?),
        "long" => long_read(alloc, &value(alloc, rest)?),
        "levels" => levels_read(alloc, number(rest)?),
        _ => Err(Broken::Verb),
    }
}

fn refused(alloc: Global, fault: &MsgFault) -> Result<String, Broken> {
    match fault {
        MsgFault::Memory => Err(Broken::Memory),
        _ => Ok(format!(in alloc; "{fault}")?),
    }
}

/// What is written of a frame that a client may have sent, or why it is refused.
#[tactic(auto, using(room_msg::proofs::SoundClient::all_sendable))]
fn of_client(alloc: Global, frame: &Text) -> Result<String, Broken> {
    match read_client(alloc, frame) {
        Ok(ClientFrame::Ping) => Ok(format!(in alloc; "the ping")?),
        Ok(ClientFrame::Msgs(msgs)) => {
            let text = write_client(alloc, &msgs.copy(alloc)?)?;
            Ok(format!(in alloc; "{} of {}", text.as_str(), msgs.len())?)
        },
        Err(fault) => refused(alloc, &fault),
    }
}

/// What is written of a frame that the server may have sent, or why it is refused.
#[tactic(auto, using(room_msg::proofs::SoundServer::one_served))]
fn of_server(alloc: Global, frame: &Text) -> Result<String, Broken> {
    match read_server(alloc, frame) {
        Ok(ServerFrame::Pong) => Ok(format!(in alloc; "the pong")?),
        Ok(ServerFrame::Msgs(msgs)) => {
            let [msg] = msgs.as_slice() else {
                return Ok(format!(in alloc; "{} messages", msgs.len())?);
            };
            let text = write_server(alloc, msg)?;
            Ok(format!(in alloc; "{}", text.as_str())?)
        },
        Err(fault) => refused(alloc, &fault),
    }
}

/// The text of so many pieces between others.
fn long(alloc: Global, start: &str, piece: &str, times: u64, end: &str) -> Result<Text, NoMemory> {
    let mut text = Text::from_str(alloc, start)?;
    for _ in 0..times {
        text.push_str(piece)?;
    }
    text.push_str(end)?;
    Ok(text)
}

/// Whether a client's frame is read, or why it is refused: a text, so many times another, and a third.
fn long_read(alloc: Global, v: &Json) -> Result<String, Broken> {
    let (start, piece, end) = (text_at(v, 0)?, text_at(v, 1)?, text_at(v, 3)?);
    let frame = long(
        alloc,
        start.as_str(),
        piece.as_str(),
        number_at(v, 2)?,
        end.as_str(),
    )?;
    size_read(alloc, &frame)
}

/// The same of a frame with an event of so many levels.
fn levels_read(alloc: Global, levels: u64) -> Result<String, Broken> {
    let event = nested(alloc, levels)?;
    let frame = long(alloc, r#"[{"type":103,"event":"#, event.as_str(), 1, "}]")?;
    size_read(alloc, &frame)
}

/// The bytes of a client's frame that is read, or why it is refused.
fn size_read(alloc: Global, frame: &Text) -> Result<String, Broken> {
    match read_client(alloc, frame) {
        Ok(_) => Ok(format!(in alloc; "{} bytes read", frame.len())?),
        Err(fault) => refused(alloc, &fault),
    }
}
