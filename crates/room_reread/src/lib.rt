//! What the server and its clients send is read as it was meant. Laws alone.
#![tactic(auto)]

mod laws;

pub use laws::{all_is_read, frames_fit, waiting_is_read};
