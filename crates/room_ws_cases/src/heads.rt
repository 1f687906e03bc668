//! The heads of handshakes, and what stands in bytes up to the first empty line and behind it.
ghost use Rattle.std.specs.Prelude.{◌≤◌, length};

use crate::broken::Broken;
use std::alloc::Global;

/// A client's request.
pub(crate) const REQUEST: &[u8] = b"GET / HTTP/1.1\r\nHost: room\r\nUpgrade: websocket\r\n\
Connection: Upgrade\r\nSec-WebSocket-Key: dGhlIHNhbXBsZSBub25jZQ==\r\nSec-WebSocket-Version: 13\r\n\r\n";

/// A server's answer to a client whose key is the bytes 1 to 8.
pub(crate) const ANSWER: &[u8] = b"HTTP/1.1 101 Switching Protocols\r\nUpgrade: websocket\r\n\
Connection: Upgrade\r\nSec-WebSocket-Accept: PMcnRK3nO2NWicxDxAEWVAeItOs=\r\n\r\n";

/// Where the first empty line ends; at the end where there is none.
fn head_end(bytes: &[u8]) -> usize
    ensures { result ≤ length bytes.now }
{
    for at in 4..bytes.len() {
        if bytes[at - 4..at].starts_with(b"\r\n\r\n") {
            return at;
        }
    }
    bytes.len()
}

/// The head, its lines parted by `|`.
pub(crate) fn head(alloc: Global, bytes: &[u8]) -> Result<String, Broken> {
    let mut out = String::new(alloc);
    for byte in &bytes[..head_end(bytes)] {
        match *byte {
            b'\r' => {}
            b'\n' => out.push('|')?,
            byte => out.push(byte as char)?,
        }
    }
    Ok(out)
}

/// What stands behind the head, as hex digits.
pub(crate) fn behind(alloc: Global, bytes: &[u8]) -> Result<String, Broken> {
    let rest = &bytes[head_end(bytes)..];
    if rest.is_empty() {
        return Ok(String::from_str(alloc, "nothing")?);
    }
    Ok(hex::encode(alloc, rest)?)
}
