//! Messages and frames.
use crate::users::Users;
use room_json::{Items, Json, Members, Seq, Text};
use room_nodes::Ops;

/// A session that is resumed: its actor, from 1, and its key.
#[derive(Clone, Copy, Debug, PartialEq, Eq)]
pub struct Resume {
    pub actor: u32,
    pub key: u64,
}

/// The first message of a connection.
#[derive(Drop)]
pub struct Hello {
    pub room: Text,
    pub resume: Option<Resume>,
    /// At most 64 bytes. Ignored where a session is resumed.
    pub name: Option<Text>,
    /// A word that access is given by.
    pub pass: Option<Text>,
}

/// A message of a client.
#[derive(Drop)]
pub enum ClientMsg {
    /// Begins a session, or resumes one.
    Hello(Hello),
    /// A patch to all others without a target, a full presence to all others at -1, and else to one actor.
    Presence { target: Option<i64>, patch: Members },
    /// An event for all others.
    Broadcast(Json),
    /// Asks for the state.
    Fetch,
    /// Operations, in their order.
    Update(Ops),
}

/// A message of the server.
#[derive(Drop)]
pub enum ServerMsg {
    /// What an actor shows: a patch without a target, and else a full presence.
    Presence {
        actor: u32,
        target: Option<i64>,
        patch: Members,
    },
    /// An actor has joined.
    Joined(u32),
    /// An actor has left.
    Left(u32),
    /// An event of an actor.
    Broadcast {
        actor: u32,
        event: Json,
    },
    /// The own actor and key, and the others.
    RoomState {
        actor: u32,
        key: u64,
        users: Users,
    },
    /// A part of a state; `more` in every part but the last.
    State {
        /// The number of updates, up to 2^53-1.
        seq: u64,
        /// The last clock of the session, up to 2^53-1.
        last: u64,
        items: Items,
        more: bool,
    },
    /// The settled operations of one update.
    Update {
        /// The number of updates with this one, up to 2^53-1.
        seq: u64,
        ops: Ops,
    },
}

/// Messages of a client.
pub type ClientMsgs = Seq<ClientMsg>;

/// Messages of the server.
pub type ServerMsgs = Seq<ServerMsg>;

/// What a client sends at once.
#[derive(Drop)]
pub enum ClientFrame {
    /// The text `ping`.
    Ping,
    /// A list of messages.
    Msgs(ClientMsgs),
}

/// What the server sends at once.
#[derive(Drop)]
pub enum ServerFrame {
    /// The text `pong`.
    Pong,
    /// One message, or a list of them.
    Msgs(ServerMsgs),
}
