//! What a server does with one arrival: a new connection, a frame, a connection that is gone. No disk is touched: what
//! is to be kept is planned into the group that is open.
#![tactic(auto)]

mod acting;
mod arriving;
mod closing;
mod draft;
mod fetching;
mod greeting;
mod needs;
mod news;
mod session;
mod texts;
mod users;

pub use arriving::arrive;
pub use closing::{gone, opened};
pub use draft::{Draft, Setting};
