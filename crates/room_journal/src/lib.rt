//! The journal of a room: two files, of which the open one of the greater generation counts, with records behind its
//! snapshot up to a closed gate.
#![tactic(auto)]

mod down;
mod fault;
mod fresh;
mod heading;
mod journal;
mod reading;
mod records;

pub use fault::JournalFault;
pub use journal::Journal;
pub use reading::{Found, Pieces};
