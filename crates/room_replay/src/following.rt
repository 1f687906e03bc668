//! An entry follows a state.
ghost use Rattle.std.specs.Prelude.{◌≡◌, ◌≤◌, ◌<◌, ◌+◌, ℕ, IfOk, option_map, Option, Some, None, length, map, true};
ghost use Rattle.room_log.specs.Log.{Join, Updated, session_of, with_last};
ghost use Rattle.room_bytes.specs.Bounds.{logged, is_written};
ghost use Rattle.room_bytes.specs.declared.entries.Format.TheVariants.{Two};
ghost use Rattle.room_nodes.specs.Shallow.{all_shallow};
ghost use Rattle.room_snapshot.specs.Bounds.{state_of, kept};
ghost use Rattle.room_replay.specs.Files.{followed_by};

use crate::stepping::settled_steps;
use room_bytes::{Entry, Session, Sessions};
use room_ids::{OpId, Stamp};
use room_json::{MAX_WHOLE, NoMemory, Text};
use room_nodes::Bodies;
use room_snapshot::Snapshot;
use room_tree::Tree;
use std::alloc::Global;

/// The state with a new session.
fn join<T: Tree>(
    state: Snapshot<T>,
    actor: u32,
    key: u64,
    name: Text,
) -> Result<Option<Snapshot<T>>, NoMemory>
    ensures { IfOk result (λ r. option_map (λ s. state_of s.count s.sessions (T.nodes s.tree)) r
        ≡ followed_by (state_of state.count state.sessions (T.nodes state.tree)) (Join actor key name)) }
{
    let mut state = state;
    if actor as u64 != state.sessions.len() + 1 {
        return Ok(None);
    }
    state.sessions.push(Session { key, last: 0, name })?;
    Ok(Some(state))
}

/// The last clock of an actor that has a session.
fn last_of(sessions: &Sessions, actor: u32) -> Option<u64>
    ensures { result ≡ option_map (λ s. s.last) (session_of (map kept sessions.now) actor) }
{
    if actor == 0 {
        return None;
    }
    match sessions.get(actor as u64 - 1) {
        Some(session) => Some(session.last),
        None => None,
    }
}

/// The sessions with another last clock of an actor.
pub fn set_last(sessions: Sessions, actor: u32, last: u64) -> Sessions
    ensures { map kept result ≡ with_last (map kept sessions) actor last }
{
    let mut all = sessions.into_vec();
    if actor == 0 || actor as usize > all.len() {
        return Sessions::from_vec(all);
    }
    all[actor as usize - 1].last = last;
    Sessions::from_vec(all)
}

/// The state after an update.
fn update<T: Tree>(
    alloc: Global,
    state: Snapshot<T>,
    actor: u32,
    first: u64,
    bodies: Bodies,
) -> Result<Option<Snapshot<T>>, NoMemory>
    requires { all_shallow bodies ≡ true }
    ensures { IfOk result (λ r. option_map (λ s. state_of s.count s.sessions (T.nodes s.tree)) r
        ≡ followed_by (state_of state.count state.sessions (T.nodes state.tree))
        (Updated (record { actor = actor; first = first; bodies = bodies }))) }
{
    let Some(last) = last_of(&state.sessions, actor) else {
        return Ok(None);
    };
    let count = bodies.len();
    if first == 0 || first - 1 != last || count == 0 {
        return Ok(None);
    }
    if last > MAX_WHOLE || count > MAX_WHOLE - last || state.count >= MAX_WHOLE {
        return Ok(None);
    }
    let Some(stamp) = Stamp::new(actor, first) else {
        return Ok(None);
    };
    let Snapshot {
        count: updates,
        sessions,
        tree,
    } = state;
    let Some(tree) = settled_steps(alloc, tree, OpId(stamp), bodies)? else {
        return Ok(None);
    };
    Ok(Some(Snapshot {
        count: updates + 1,
        sessions: set_last(sessions, actor, last + count),
        tree,
    }))
}

/// The state after an entry that was read, where it follows; where it doesn't, the state is used up.
pub fn follow<T: Tree>(
    alloc: Global,
    state: Snapshot<T>,
    e: Entry,
) -> Result<Option<Snapshot<T>>, NoMemory>
    requires { is_written Two (logged e) ≡ true }
    ensures { IfOk result (λ r. option_map (λ s. state_of s.count s.sessions (T.nodes s.tree)) r
        ≡ followed_by (state_of state.count state.sessions (T.nodes state.tree)) (logged e)) }
{
    match e {
        Entry::Join { actor, key, name } => join(state, actor, key, name),
        Entry::Update {
            actor,
            first,
            bodies,
        } => update(alloc, state, actor, first, bodies),
    }
}
