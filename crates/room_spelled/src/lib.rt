//! What is read of a schedule or a script is sound. Laws alone.
#![tactic(auto)]

mod laws;

pub use laws::{schedules_are_spelled, scripts_are_spelled};
