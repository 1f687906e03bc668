//! What a script is that one client runs over a hub: definitions, with samples of them.
//!
//! `Scripted`: which call of the hub comes next, what comes of each, and what is written.
#![tactic(auto)]

mod cases;

pub use cases::samples;
