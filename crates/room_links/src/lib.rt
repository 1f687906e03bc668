//! The attached connections of a server, and what goes out on them.
#![tactic(auto)]

mod link;
mod links;
mod outs;
mod sending;

pub use link::Link;
pub use links::Links;
pub use outs::{Out, Outs, Sending};
pub use sending::Whom;
