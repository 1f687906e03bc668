//! What a store shows of its sessions, after the group that is open.
ghost use Rattle.std.specs.Prelude.{◌≡◌, length, map, option_map};
ghost use Rattle.std.specs.Option.{option_copied};
ghost use Rattle.room_log.specs.Log.{session_of, last_of};
ghost use Rattle.room_snapshot.specs.Bounds.{kept};

use crate::fault::Cause;
use crate::limits::Limits;
use crate::store::Store;
use room_bytes::{Session, Sessions};
use room_json::Text;
use room_tree::Tree;

/// The session of an actor.
fn session_at(sessions: &Sessions, actor: u32) -> Option<&Session>
    ensures { option_map kept (option_copied result) ≡ session_of (map kept sessions.now) actor }
{
    if actor == 0 {
        return None;
    }
    sessions.get(actor as u64 - 1)
}

impl<T: Tree> Store<T> {
    /// The limits.
    pub fn limits(&self) -> Limits
        ensures { result ≡ self.now.limits }
    {
        self.limits
    }

    /// What broke it.
    pub fn broken(&self) -> Option<Cause>
        ensures { result ≡ self.now.broken }
    {
        self.kept.broken
    }

    /// The number of sessions. Their actors are 1, 2, .. up to it.
    pub fn sessions(&self) -> u32
        ensures { result ≡ length self.now.state.sessions }
    {
        self.state.sessions.len() as u32
    }

    /// The last clock of an actor, 0 for one without a session.
    pub fn last_of(&self, actor: u32) -> u64
        ensures { result ≡ last_of self.now.state.sessions actor }
    {
        match session_at(&self.state.sessions, actor) {
            Some(session) => session.last,
            None => 0,
        }
    }

    /// The key of an actor that has a session.
    pub fn key_of(&self, actor: u32) -> Option<u64>
        ensures { result ≡ option_map (λ s. s.key) (session_of self.now.state.sessions actor) }
    {
        match session_at(&self.state.sessions, actor) {
            Some(session) => Some(session.key),
            None => None,
        }
    }

    /// The name that an actor that has a session gave.
    pub fn name_of(&self, actor: u32) -> Option<&Text>
        ensures { option_copied result ≡ option_map (λ s. s.name) (session_of self.now.state.sessions actor) }
    {
        match session_at(&self.state.sessions, actor) {
            Some(session) => Some(&session.name),
            None => None,
        }
    }
}
