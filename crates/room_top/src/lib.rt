//! The top call: the words of a command, its input and a disk in; a report, a status and a durable room out.
#![tactic(auto)]

mod commands;
mod input;
mod reporting;
mod showing;
mod texts;
mod top;
mod wanted;
mod wanting;

pub use top::run;
pub use wanted::Wants;
pub use wanting::wants;
