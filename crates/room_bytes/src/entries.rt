//! Entries of the log, sessions, and the formats of files.
use room_json::{Copied, NoMemory, Seq, Sound, Text};
use room_nodes::Bodies;
use std::alloc::Global;

/// A format of files: both are read, the second alone is written.
#[derive(Clone, Copy, Debug, PartialEq, Eq)]
pub enum Format {
    /// Without names.
    One,
    /// With names, and with groups of entries.
    Two,
}

/// An entry of the log: a new session with its actor, its key and its name, or operations of an actor whose clocks run
/// on from the first.
#[derive(Drop)]
pub enum Entry {
    Join {
        actor: u32,
        key: u64,
        name: Text,
    },
    Update {
        actor: u32,
        first: u64,
        bodies: Bodies,
    },
}

/// A session: the key that resumes it, its last clock, and its name.
#[derive(Drop)]
pub struct Session {
    pub key: u64,
    pub last: u64,
    pub name: Text,
}

/// Entries in order.
pub type Entries = Seq<Entry>;

/// The sessions of actors 1, 2, .. in order.
pub type Sessions = Seq<Session>;

impl Copied for Entry {
    fn copy(&self, alloc: Global) -> Result<Entry, NoMemory> {
        match self {
            Entry::Join { actor, key, name } => Ok(Entry::Join {
                actor: *actor,
                key: *key,
                name: name.copy(alloc)?,
            }),
            Entry::Update {
                actor,
                first,
                bodies,
            } => Ok(Entry::Update {
                actor: *actor,
                first: *first,
                bodies: bodies.copy(alloc)?,
            }),
        }
    }
}

impl Copied for Session {
    fn copy(&self, alloc: Global) -> Result<Session, NoMemory> {
        Ok(Session {
            key: self.key,
            last: self.last,
            name: self.name.copy(alloc)?,
        })
    }
}

#[tactic(auto, using(room_nodes::proofs::Soundness::all_bodies))]
impl Sound for Entry {
    ghost use Rattle.room_bytes.specs.Bounds.{IsSoundHere};

    ghost sound = { IsSoundHere };

    fn sound(&self) {
        match self {
            Entry::Join { actor, key, name } => {
                let (_actor, _key) = (*actor, *key);
                name.sound();
            }
            Entry::Update {
                actor,
                first,
                bodies,
            } => {
                let (_actor, _first) = (*actor, *first);
                bodies.sound();
            }
        }
    }
}
