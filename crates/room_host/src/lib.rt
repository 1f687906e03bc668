//! The server of a world: it runs, or is stopped, over a disk that can stop.
#![tactic(auto)]

mod ending;
mod fault;
mod hearing;
mod host;
mod outcomes;
mod report;
mod resting;
mod starting;

pub use fault::HostFault;
pub use host::Host;
pub use outcomes::{Heard, Started};
