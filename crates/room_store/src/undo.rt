//! What takes a state back to the one before the group that is open.
ghost use Rattle.std.specs.Prelude.{◌≡◌, ◌≤◌, ◌+◌, ◌-◌, ◌++◌, ◌∷◌, [], length, take, map, vec_len, vec_capacity};
ghost use Rattle.std.specs.FinMap.{len};
ghost use Rattle.room_snapshot.specs.Bounds.{state_of, kept};
ghost use Rattle.room_store.specs.Undoing.{gone, undone_by, undone, CanGo, CanUndoBy, CanUndo};

use room_apply::{Edits, back};
use room_bytes::Sessions;
use room_json::Seq;
use room_replay::set_last;
use room_snapshot::Snapshot;
use room_tree::Tree;
use std::alloc::Global;

/// What takes one entry of a group back.
#[derive(Drop)]
pub enum Undo {
    /// A session was added.
    Joined,
    /// An update was taken. Before it there were so many updates, and the actor's last clock was `last`; the steps are
    /// taken back by their edits.
    Updated {
        count: u64,
        actor: u32,
        last: u64,
        steps: Seq<Edits>,
    },
}

/// Takes steps back, the last first.
pub fn back_all<T: Tree>(t: &mut T, steps: &mut Vec<Edits>)
    requires { CanGo (len (T.nodes t.old) + T.spare t.old) (T.nodes t.old) steps.old.items }
    ensures nodes { T.nodes t.new ≡ gone (T.nodes t.old) steps.old.items }
    ensures sum { len (T.nodes t.new) + T.spare t.new ≡ len (T.nodes t.old) + T.spare t.old }
{
    while let Some(one) = steps.pop() {
        let mut one = one;
        back(t, &mut one);
    }
}

/// The sessions without the last one.
fn without_last(sessions: Sessions) -> Sessions
    ensures { map kept result ≡ take (length (map kept sessions) - 1) (map kept sessions) }
{
    let mut all = sessions.into_vec();
    drop(all.pop());
    Sessions::from_vec(all)
}

/// Takes one entry back.
fn undo_one<T: Tree>(alloc: Global, state: &mut Snapshot<T>, one: Undo)
    requires { CanUndoBy (len (T.nodes state.old.tree) + T.spare state.old.tree)
        (state_of state.old.count state.old.sessions (T.nodes state.old.tree)) one }
    ensures state { state_of state.new.count state.new.sessions (T.nodes state.new.tree)
        ≡ undone_by (state_of state.old.count state.old.sessions (T.nodes state.old.tree)) one }
    ensures sum { len (T.nodes state.new.tree) + T.spare state.new.tree
        ≡ len (T.nodes state.old.tree) + T.spare state.old.tree }
{
    let sessions = std::mem::replace(&mut state.sessions, Seq::new(alloc));
    match one {
        Undo::Joined => {
            state.sessions = without_last(sessions);
        },
        Undo::Updated {
            count,
            actor,
            last,
            steps,
        } => {
            let mut steps = steps.into_vec();
            back_all(&mut state.tree, &mut steps);
            state.sessions = set_last(sessions, actor, last);
            state.count = count;
        },
    }
}

/// Takes all entries back, the last first. Takes no memory.
pub fn undo_all<T: Tree>(state: &mut Snapshot<T>, undo: &mut Vec<Undo>)
    requires { CanUndo (len (T.nodes state.old.tree) + T.spare state.old.tree)
        (state_of state.old.count state.old.sessions (T.nodes state.old.tree)) undo.old.items }
    ensures state { state_of state.new.count state.new.sessions (T.nodes state.new.tree)
        ≡ undone (state_of state.old.count state.old.sessions (T.nodes state.old.tree)) undo.old.items }
    ensures empty { undo.new.items ≡ [] }
{
    let alloc = *undo.allocator();
    while let Some(one) = undo.pop() {
        undo_one(alloc, state, one);
    }
}
