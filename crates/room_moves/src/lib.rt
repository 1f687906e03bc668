//! The world: clients, queues and a server that stops.
#![tactic(auto)]

mod laws;

pub use laws::{fuses_burn, parts_make_worlds, texts_are_seen};
