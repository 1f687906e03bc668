//! What a served room is over a hub: definitions, with samples of them.
//!
//! 1. `Turns`: an event of the hub, and the events of a turn.
//! 2. `Serving`: which call of the hub comes next while a room is served, and what comes of it.
#![tactic(auto)]

mod cases;

pub use cases::samples;
