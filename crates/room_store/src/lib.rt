//! A durable room: its state, and the two files that hold it through any stop.
#![tactic(auto)]

mod fault;
mod group;
mod kept;
mod limits;
mod planning;
mod showing;
mod starting;
mod store;
mod taking;
mod undo;

pub use fault::{Cause, StoreFault};
pub use group::Group;
pub use limits::Limits;
pub use store::Store;
pub use taking::Taken;
