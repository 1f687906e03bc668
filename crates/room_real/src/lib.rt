//! The real things: standard input and output, random bytes, a folder as a disk, and TCP streams, each with its faults
//! counted.
#![tactic(auto)]

mod again;
mod folder;
mod random;
mod streams;
mod tcp;

pub use folder::Folder;
pub use random::RandomBytes;
pub use streams::{Reading, Writing};
pub use tcp::{TcpDials, TcpPeers, TcpWire};
