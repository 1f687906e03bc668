//! The headline: what holds at every line of every run, and what the disk stands for at every moment of it.
#![tactic(auto)]

mod laws;

pub use laws::{each_is_found, holds_everywhere};
