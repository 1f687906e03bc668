//! Laws of a served room, over whatever happens on its hub.
#![tactic(auto)]

mod laws;

pub use laws::{parts, sent_is_logged, served_valid};
