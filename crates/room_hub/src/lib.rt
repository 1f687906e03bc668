//! A hub of connections as a trait: what happened on it in order, with a count of faults, and its forms in memory.
#![tactic(auto)]

mod board;
mod calls;
mod copying;
mod hub;
mod mem;
mod sure;

pub use hub::{Deed, Deeds, Event, Events, Happening, Hub, HubFault, SendFault};
pub use mem::MemHub;
pub use sure::SureHub;
