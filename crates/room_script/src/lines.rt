//! The lines of schedules and scripts.
use room_json::{Json, Members, Seq, Text};
use room_props::Edit;

/// What a stop within a disk write leaves of what was not synced.
#[derive(Clone, Copy, Debug, PartialEq, Eq)]
pub enum How {
    /// Nothing.
    Old,
    /// All.
    New,
    /// All, with other bytes.
    Torn,
}

/// Who is asked for a report.
#[derive(Clone, Copy, Debug, PartialEq, Eq)]
pub enum Spot {
    Client(u32),
    Server,
}

/// A line. In a schedule clients are numbered from 1 to 64; a script has one client, whose number is 0.
#[derive(Drop)]
pub enum Line {
    Dial(u32),
    Edit(u32, Edit),
    Begin(u32),
    End(u32),
    Undo(u32),
    Redo(u32),
    Pause(u32),
    Resume(u32),
    Clear(u32),
    /// A change of the client's own presence.
    Presence {
        client: u32,
        patch: Members,
        in_history: bool,
    },
    Event(u32, Json),
    Flush(u32),
    Resend(u32),
    /// The server receives the next frame of a connection.
    Up(u64),
    /// The client or the link receives the next frame of a connection.
    Down(u64),
    /// So many times the next frame of any connection is received.
    Drain(u64),
    Cut(u32),
    /// The server notices that a connection is gone.
    Gone(u64),
    Stop,
    Start,
    /// The server stops at its n-th call of the disk from here on.
    Fuse(u64, How),
    Compact,
    /// The limits of updates and of sessions.
    Limit(u64, u32),
    /// A connection without a client.
    Link,
    /// A text is sent on a link.
    Raw(u64, Text),
    Show(Spot),
    Brief(Spot),
    Others(u32),
    History(u32),
    Notices(u32),
    /// In a script alone: frames are received up to a number of them or of tries.
    Take(u64, u64),
}

/// The lines of a schedule with their numbers.
pub type Schedule = Seq<(u64, Line)>;

/// The lines of a script with their numbers.
pub type Script = Seq<(u64, Line)>;
