//! What waits on each connection of a world, as texts.
#![tactic(auto)]

mod conn;
mod laws;
mod mail;
mod queues;

pub use conn::Conn;
pub use laws::sent_texts_are_seen;
pub use mail::{Inbound, Mail, Outbound};
pub use queues::Queues;
