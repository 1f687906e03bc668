//! A hub of connections, as its callers see it.
ghost use Rattle.std.specs.Prelude.{◌≡◌, ◌≤◌, ◌++◌, Bool, ℕ, List, true};
ghost use Rattle.room_edge.specs.Memory.{next};
ghost use Rattle.room_hub.specs.declared.hub.HubFault.TheVariants.{Failed};
ghost use Rattle.room_hub.specs.declared.hub.SendFault.TheVariants.{Lost};
ghost use Rattle.room_hub.specs.Causes.{HasCause};
ghost use Rattle.room_hub.specs.Happening.{gave, tried, dialled, sent, closed, IsNewEvent, IsNewDial};

use room_json::{NoMemory, Seq, Text};
use std::error::Error;
use std::fmt;

/// What a hub gives: what happened on its connections.
#[derive(Drop)]
pub enum Event {
    /// A connection was opened: its number, never given before, and a random key.
    Opened(u64, u64),
    /// A connection's frame.
    Frame(u64, Text),
    /// A connection is gone.
    Gone(u64),
    /// Nothing was ready.
    Quiet,
    /// Nothing more comes.
    End,
}

/// Events, in order.
pub type Events = Seq<Event>;

/// What was done on a hub. The flag says that it was lost.
#[derive(Drop)]
pub enum Deed {
    /// A text was sent on a connection.
    Sent(u64, Text, bool),
    /// A connection was closed, with a code and a text.
    Closed(u64, u16, Text, bool),
    /// A connection was opened.
    Dialled(u64),
}

/// Deeds, in order.
pub type Deeds = Seq<Deed>;

/// What happened on a hub.
#[derive(Drop)]
pub enum Happening {
    /// It gave an event.
    Gave(Event),
    /// Something was done on it.
    Did(Deed),
    /// It was asked for an event, or to open a connection, and failed.
    Failed,
}

/// Why no event was given, or no connection opened.
#[derive(Clone, Copy, Debug, PartialEq, Eq)]
pub enum HubFault {
    /// Out of memory.
    Memory,
    /// The count of faults rose.
    Failed,
}

impl fmt::Display for HubFault {
    fn fmt<W: fmt::Write>(&self, f: &mut fmt::Formatter<W>) -> fmt::Result {
        f.write_str(match self {
            HubFault::Memory => "out of memory",
            HubFault::Failed => "the hub failed",
        })
    }
}

impl Error for HubFault {}

impl From<NoMemory> for HubFault {
    ghost use Rattle.std.specs.Prelude.{◌≡◌};
    ghost use Rattle.room_hub.specs.declared.hub.HubFault.TheVariants.{Memory};

    ghost from_gives = { λ _ e. e ≡ Memory };

    fn from(_error: NoMemory) -> HubFault {
        HubFault::Memory
    }
}

/// Why a text was not sent, or a connection not closed.
#[derive(Clone, Copy, Debug, PartialEq, Eq)]
pub enum SendFault {
    /// Out of memory; nothing was tried.
    Memory,
    /// It was tried in vain: the count of faults rose.
    Lost,
}

impl fmt::Display for SendFault {
    fn fmt<W: fmt::Write>(&self, f: &mut fmt::Formatter<W>) -> fmt::Result {
        f.write_str(match self {
            SendFault::Memory => "out of memory",
            SendFault::Lost => "lost",
        })
    }
}

impl Error for SendFault {}

impl From<NoMemory> for SendFault {
    ghost use Rattle.std.specs.Prelude.{◌≡◌};
    ghost use Rattle.room_hub.specs.declared.hub.SendFault.TheVariants.{Memory};

    ghost from_gives = { λ _ e. e ≡ Memory };

    fn from(_error: NoMemory) -> SendFault {
        SendFault::Memory
    }
}

/// Connections by number: what happens on them, and what is done.
pub trait Hub {
    ghost use Rattle.room_hub.specs.declared.hub.Happening.{Happening};

    /// Whether it tells what happened.
    ghost tells: { Bool };

    /// What happened so far, in order: the events that it gave, what was sent, closed and dialled, and where it failed.
    ghost happened: { Self → List Happening };

    /// How often it was asked for an event, up to the end of the type that counts it.
    ghost asked: { Self → ℕ };

    /// How many calls failed or were lost, up to the end of the type that counts them.
    ghost faults: { Self → ℕ };

    /// The next event.
    fn next(&mut self) -> Result<Event, HubFault>
        ensures told { tells ≡ true → happened self.new ≡ happened self.old ++ gave result }
        ensures fresh { tells ≡ true → IsNewEvent (happened self.old) result }
        ensures asked { asked self.new ≡ next (asked self.old) }
        ensures cause { HasCause Failed (faults self.old) (faults self.new) result };

    /// Sends a text on a connection.
    fn send(&mut self, conn: u64, text: &Text) -> Result<(), SendFault>
        ensures told { tells ≡ true → happened self.new ≡ happened self.old ++ tried (sent conn text.now) result }
        ensures asked { asked self.new ≡ asked self.old }
        ensures cause { HasCause Lost (faults self.old) (faults self.new) result };

    /// Closes a connection, with a code and a text.
    fn close(&mut self, conn: u64, code: u16, text: &Text) -> Result<(), SendFault>
        ensures told { tells ≡ true
            → happened self.new ≡ happened self.old ++ tried (closed conn code text.now) result }
        ensures asked { asked self.new ≡ asked self.old }
        ensures cause { HasCause Lost (faults self.old) (faults self.new) result };

    /// Opens a connection, and answers its number, never given before.
    fn dial(&mut self) -> Result<u64, HubFault>
        ensures told { tells ≡ true → happened self.new ≡ happened self.old ++ dialled result }
        ensures fresh { tells ≡ true → IsNewDial (happened self.old) result }
        ensures asked { asked self.new ≡ asked self.old }
        ensures cause { HasCause Failed (faults self.old) (faults self.new) result };
}
