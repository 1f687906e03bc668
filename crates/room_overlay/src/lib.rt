//! What a client shows: the confirmed tree with its own operations beyond the acknowledged ones on top.
#![tactic(auto)]

mod equality;
mod faults;
mod laws;
mod overlay;
mod own;
mod telling;
mod together;
mod touching;

pub use faults::OverFault;
pub use laws::overlays_are_parts_of_accounts;
pub use overlay::Overlay;
