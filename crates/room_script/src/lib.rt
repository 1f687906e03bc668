//! Schedules and scripts: what the program is told, as text, and the schedules that are made from a number.
//!
//! A newcomer reads the definitions `Words`, then `Live` and `Edits`, then `Grammar`; `Generator` stands by itself.
#![tactic(auto)]

mod calls;
mod cases;
mod edits;
mod fault;
mod generating;
mod laws;
mod lines;
mod live;
mod numbers;
mod reading;
mod rows;
mod schedules;
mod scripts;
mod words;

pub use cases::samples;
pub use fault::ScriptFault;
pub use generating::schedule_of;
pub use laws::schedules_are_read;
pub use lines::{How, Line, Schedule, Script, Spot};
pub use reading::{read_schedule, read_script};
