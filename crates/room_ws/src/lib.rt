//! WebSocket connections as a hub, over any listener and any source of random bytes.
#![tactic(auto)]

mod connection;
mod hub;
mod key;
mod listen;
mod masks;
mod mem;

pub use hub::{Side, WsHub};
pub use listen::Listen;
pub use mem::MemListen;
