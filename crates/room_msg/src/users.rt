//! The users of a room.
ghost use Rattle.std.specs.Prelude.{◌≡◌, ◌≤◌, ◌++◌, [], ◌∷◌, length, OnOk, OnErr};
ghost use Rattle.std.specs.List.{insert};

use room_json::{NoMemory, Text};
use std::alloc::Global;
use std::marker::Model;

/// Actors with their names, in the order that they were put in. Contracts see the list of pairs.
///
/// What `read_server` gives rises by actor, and `write_server` asks for that.
#[derive(Drop)]
pub struct Users {
    pairs: Vec<(u32, Text)>,
}

impl Model for Users {
    ghost use Rattle.std.specs.Prelude.{List, ℕ};

    ghost Value = { List (ℕ × List ℕ) };

    ghost view = { λ u. u.pairs.items };
}

impl Users {
    /// No users.
    pub fn new(alloc: Global) -> Users
        ensures { result ≡ [] }
    {
        Users {
            pairs: Vec::new(alloc),
        }
    }

    /// How many there are.
    pub fn len(&self) -> u64
        ensures { result ≡ length self.now }
    {
        self.pairs.len() as u64
    }

    /// The actors with their names.
    pub fn as_slice(&self) -> &[(u32, Text)]
        ensures { result.now ≡ self.now }
    {
        self.pairs.as_slice()
    }

    /// Puts any actor behind the others. A refused call changes nothing.
    pub fn push(&mut self, actor: u32, name: Text) -> Result<(), NoMemory>
        ensures ok { OnOk result (self.new ≡ self.old ++ (actor, name) ∷ []) }
        ensures err { OnErr result (self.new ≡ self.old) }
    {
        self.pairs.push((actor, name))?;
        Ok(())
    }

    /// Puts an actor in at an index. A refused call changes nothing.
    pub(crate) fn insert(&mut self, at: usize, actor: u32, name: Text) -> Result<(), NoMemory>
        requires { at ≤ length self.old }
        ensures ok { OnOk result (self.new ≡ insert self.old at (actor, name)) }
        ensures err { OnErr result (self.new ≡ self.old) }
    {
        self.pairs.insert(at, (actor, name))?;
        Ok(())
    }
}
