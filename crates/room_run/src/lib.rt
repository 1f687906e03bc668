//! A run of a schedule: the world begins in the room of a disk, and the lines are done one after the other.
#![tactic(auto)]

mod halt;
mod playing;
mod running;
mod telling;

pub use halt::Halt;
pub use running::{replay, run};
pub use telling::write_whole;
