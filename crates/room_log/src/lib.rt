//! The log of a room: sessions, states, updates and entries; what a server takes of the operations that a session
//! sends; which entries follow a state.
//!
//! Definitions, and laws of these.
#![tactic(auto)]

mod laws;

pub use laws::{follows_exactly, taken_follows, taken_once, valid_after};
