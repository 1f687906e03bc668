//! Messages and frames between clients and the server.
#![tactic(auto)]

mod codes;
mod copies;
mod fields;
mod frames;
mod keys;
mod laws;
mod messages;
mod reading;
mod reason;
mod receiving;
mod roster;
mod sending;
mod serving;
mod users;

pub use frames::{MAX_FRAME, read_client, read_server};
pub use laws::{
    client_frames_are_sound, client_frames_read_back, server_frames_are_sound,
    server_frames_read_back,
};
pub use messages::{
    ClientFrame, ClientMsg, ClientMsgs, Hello, Resume, ServerFrame, ServerMsg, ServerMsgs,
};
pub use reason::{MsgFault, Reason};
pub use sending::write_client;
pub use serving::write_server;
pub use users::Users;
