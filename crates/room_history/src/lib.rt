//! Undo and redo: what takes changes back, in two lists, and a pause that gathers.
#![tactic(auto)]

mod history;

pub use history::{History, MAX_ENTRIES};
