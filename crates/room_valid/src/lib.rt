//! What files stand for is a valid state. Laws alone.
#![tactic(auto)]

mod laws;

pub use laws::{entries_are_sound, files_are_valid, values_are_json};
