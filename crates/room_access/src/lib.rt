//! Access: which groups may do what in which room, and the text that says so.
//!
//! A newcomer reads the definitions `Access` of the model, then `Grammar`, which says how its text is spelled.
#![tactic(auto)]

mod access;
mod cases;
mod deciding;
mod fault;
mod lines;
mod reading;
mod rows;
mod words;

pub use access::{Access, Decision, Level, Pass, Passes, Policy, Rule};
pub use cases::samples;
pub use deciding::{decide, group_of};
pub use fault::AccessFault;
pub use reading::read_access;
