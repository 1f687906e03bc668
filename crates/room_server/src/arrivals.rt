//! What comes to a server.
use room_json::{Seq, Text};

/// What comes to a server on a connection.
#[derive(Drop)]
pub enum Came {
    /// A connection begins, with the key of a session that begins on it.
    Opened(u64, u64),
    /// A connection's frame.
    Frame(u64, Text),
    /// A connection is gone.
    Gone(u64),
}

/// What comes in one turn, in its order.
pub type Arrivals = Seq<Came>;
