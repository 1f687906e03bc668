//! The server of a room: what it answers each event, and what it takes into the room's log.
#![tactic(auto)]

mod arrivals;
mod fault;
mod server;
mod turning;

pub use arrivals::{Arrivals, Came};
pub use fault::ServerFault;
pub use room_links::{Out, Outs};
pub use server::Server;
