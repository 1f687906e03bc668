//! Operations as JSON.
#![tactic(auto)]

mod access;
mod code;
mod fault;
mod laws;
mod reading;
mod writing;

pub use fault::{Field, WireFault};
pub use laws::{ops_are_sound, ops_read_back};
pub use reading::read_op;
pub use writing::write_op;
