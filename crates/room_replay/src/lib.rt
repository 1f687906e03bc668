//! What the two files of a room stand for: a snapshot, and the entries of the records behind it, each where it follows.
#![tactic(auto)]

mod following;
mod opening;
mod stepping;

pub use following::{follow, set_last};
pub use opening::open;
