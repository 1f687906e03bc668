//! Snapshots: the bytes of a room's state, one spelling for each state.
#![tactic(auto)]

mod checking;
mod laws;
mod order;
mod putting;
mod reading;
mod row;
mod snapshot;
mod writing;

pub use laws::{snapshots_are_spelled_once, snapshots_read_back};
pub use room_bytes::{Format, Session, Sessions};
pub use snapshot::{Snapshot, read_snapshot};
pub use writing::write_snapshot;
