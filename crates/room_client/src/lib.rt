//! The client of a room: what it shows, keeps, sends and takes.
#![tactic(auto)]

mod calls;
mod client;
mod faults;
mod flushing;
mod frames;
mod outcome;
mod parts;
mod receiving;
mod stage;

pub use client::Client;
pub use faults::FrameFault;
pub use frames::Frames;
pub use outcome::{Heard, Outcome};
pub use room_editor::{BatchFault, SayFault, UndoFault};
