//! A WebSocket connection: its handshakes, and what is read of it and sent on it.

use crate::masks::Masks;
use room_json::{NoMemory, Text};
use std::alloc::Global;
use std::io;
use std::io::{ErrorKind, Read, Write};
use tungstenite::handshake::client::{request_of, start};
use tungstenite::{
    CloseCode, CloseFrame, Error, HandshakeError, Message, Role, Utf8Bytes, WebSocket,
    WebSocketConfig, accept,
};

/// A connection on a stream.
pub(crate) type Connection<T> = WebSocket<T, Masks>;

/// What a read gave.
#[derive(Drop)]
pub(crate) enum Given {
    /// A text.
    Text(Text),
    /// The connection's end.
    Gone,
    /// Nothing to hand on.
    Quiet,
}

/// Why nothing left on a connection.
#[derive(Clone, Copy)]
pub(crate) enum Unsent {
    Memory,
    Lost,
}

/// The server's handshake on a stream, or none where it fails.
pub(crate) fn accepted<T: Read + Write + Drop>(
    alloc: Global,
    stream: T,
) -> Result<Option<Connection<T>>, NoMemory> {
    match accept(alloc, stream) {
        Ok(socket) => {
            let stream = socket.into_inner();
            let masks = Masks::new(0);
            Ok(Some(WebSocket::from_raw_socket(alloc, stream, masks, Role::Server, None)))
        }
        Err(HandshakeError::Failure(Error::OutOfMemory)) => Err(NoMemory),
        Err(_) => Ok(None),
    }
}

/// The client's handshake on a stream, in the name of this address and with bytes drawn from this state; or none where
/// it fails.
pub(crate) fn asked<T: Read + Write + Drop>(
    alloc: Global,
    stream: T,
    address: &Text,
    state: u64,
) -> Result<Option<Connection<T>>, NoMemory> {
    let uri = format!(in alloc; "ws://{}/", address.as_str())?;
    let Ok(request) = request_of(alloc, uri.as_str()) else {
        return Ok(None);
    };
    let mut masks = Masks::new(state);
    let nonce = masks.nonce();
    // a server that was dialled may send states of any size
    let config = WebSocketConfig::default()
        .max_message_size(None)
        .max_frame_size(None);
    let begun = match start(alloc, nonce, masks, request, stream, Some(config)) {
        Ok(begun) => begun,
        Err(Error::OutOfMemory) => return Err(NoMemory),
        Err(_) => return Ok(None),
    };
    match begun.handshake() {
        Ok((socket, _answer)) => Ok(Some(socket)),
        Err(HandshakeError::Failure(Error::OutOfMemory)) => Err(NoMemory),
        Err(_) => Ok(None),
    }
}

/// Reads once. A connection that sends a binary message is closed.
pub(crate) fn heard<T: Read + Write + Drop>(
    alloc: Global,
    socket: &mut Connection<T>,
) -> Result<Given, NoMemory> {
    let message = match socket.read() {
        Ok(message) => message,
        Err(error) => return unheard(error),
    };
    if message.is_binary() {
        let _ = closed(alloc, socket, 1003, "");
        return Ok(Given::Gone);
    }
    if message.is_close() {
        // the answer to it waits
        let _ = socket.flush();
        return Ok(Given::Gone);
    }
    match &message {
        Message::Text(text) => {
            let mut copy = Text::new(alloc);
            copy.push_str(text.as_str())?;
            Ok(Given::Text(copy))
        }
        _ => Ok(Given::Quiet),
    }
}

/// What an error of a read means.
fn unheard(error: Error) -> Result<Given, NoMemory> {
    match error {
        Error::OutOfMemory => Err(NoMemory),
        Error::Io(cause) if cause.kind() == ErrorKind::WouldBlock => Ok(Given::Quiet),
        _ => Ok(Given::Gone),
    }
}

/// Sends a text.
pub(crate) fn sent<T: Read + Write + Drop>(
    alloc: Global,
    socket: &mut Connection<T>,
    text: &Text,
) -> Result<(), Unsent> {
    let Ok(message) = Message::text(alloc, text.as_str()) else {
        return Err(Unsent::Memory);
    };
    done(socket.send(message))
}

/// Sends a close.
pub(crate) fn closed<T: Read + Write + Drop>(
    alloc: Global,
    socket: &mut Connection<T>,
    code: u16,
    text: &str,
) -> Result<(), Unsent> {
    let Ok(reason) = Utf8Bytes::copy_from_str(alloc, text) else {
        return Err(Unsent::Memory);
    };
    let code = CloseCode::from(code);
    done(socket.close(Some(CloseFrame { code, reason })))
}

fn done(answer: Result<(), Error>) -> Result<(), Unsent> {
    match answer {
        Ok(()) => Ok(()),
        Err(Error::OutOfMemory) => Err(Unsent::Memory),
        Err(_) => Err(Unsent::Lost),
    }
}
