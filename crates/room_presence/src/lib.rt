//! Presence: a small object of each user, which isn't stored.
#![tactic(auto)]

mod presence;

pub use presence::Presence;
