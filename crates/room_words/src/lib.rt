//! The words of a call, read as the command that they spell.
#![tactic(auto)]

mod checks;
mod command;
mod found;
mod grammar;
mod reading;

pub use command::{Command, Deed, Hosted};
pub use reading::command_of;
