//! What a client's user does: edits, batches, undo and redo, presence; and what lasts over connections.
#![tactic(auto)]

mod batches;
mod editor;
mod edits;
mod entries;
mod faults;
mod gathering;
mod going;
mod names;
mod past;
mod putting;
mod sending;
mod sizes;
mod speaking;
mod taking;
mod telling;

pub use editor::Editor;
pub use faults::{BatchFault, SayFault, UndoFault};
