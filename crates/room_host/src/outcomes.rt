//! What a host answers where nothing failed.
use room_server::Outs;

/// What became of a frame.
#[derive(Drop)]
pub enum Heard {
    /// What goes out.
    Sends(Outs),
    /// The disk stopped in it, and so did the server.
    Stopped,
}

/// What became of a start.
#[derive(Clone, Copy, Debug, PartialEq, Eq)]
pub enum Started {
    /// It runs already.
    Ran,
    /// It runs from now on.
    Began,
    /// The disk stopped in it, and the server stays stopped.
    Failed,
}
