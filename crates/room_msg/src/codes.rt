//! What the number of a message says.
/// What a client's message is, by its `type`.
#[derive(Clone, Copy, Debug, PartialEq, Eq)]
pub(crate) enum ClientCode {
    Hello,
    Presence,
    Broadcast,
    Fetch,
    Update,
}

/// What a server's message is, by its `type`.
#[derive(Clone, Copy, Debug, PartialEq, Eq)]
pub(crate) enum ServerCode {
    Presence,
    Joined,
    Left,
    Broadcast,
    RoomState,
    State,
    Update,
}
