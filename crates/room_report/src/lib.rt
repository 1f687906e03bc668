//! The lines of a report, one call for each kind.
#![tactic(auto)]

mod calls;
mod clients;
mod connections;
mod servers;
mod words;

pub use calls::{nothing, refused, refused_number, refused_numbers, refused_text};
pub use clients::{brief_client, event, history, notices, others, show_client};
pub use connections::{closed, got};
pub use servers::{brief_server, server_stopped, show_server, start, start_failed};
