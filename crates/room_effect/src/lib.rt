//! The law of an edit's effect: what its operations make of what is shown.
#![tactic(auto)]

mod effects;

pub use effects::edits_show;
