//! Entries are planned: each follows the state shown, and is added to the group that is open.
ghost use Rattle.std.specs.Prelude.{◌≡◌, ◌≤◌, ◌<◌, ◌+◌, ◌++◌, ◌∷◌, [], length, ℕ, true, Some, vec_len, vec_capacity};
ghost use Rattle.std.specs.Prelude.{map, IfOk, OnOk, OnErr, IsSome, IsErrOf};
ghost use Rattle.std.specs.FinMap.{len};
ghost use Rattle.room_nodes.specs.Shallow.{AreShallowOps};
ghost use Rattle.room_nodes.specs.Sound.{AreSoundOps};
ghost use Rattle.room_nodes.specs.Steps.{fold};
ghost use Rattle.room_log.specs.Log.{Join, Updated, joined, updated, session_of, last_of, last_from, state_after};
ghost use Rattle.room_log.specs.Log.{ops_of as ops_in};
ghost use Rattle.room_log.specs.Follows.{follows, most};
ghost use Rattle.room_log.specs.Taking.{take};
ghost use Rattle.room_bytes.specs.Bounds.{logged, is_written, all_written};
ghost use Rattle.room_bytes.specs.Reading.{group_of};
ghost use Rattle.room_bytes.specs.declared.entries.Format.TheVariants.{Two};
ghost use Rattle.room_journal.specs.Rest.{IsReady, body_of};
ghost use Rattle.room_snapshot.specs.Bounds.{state_of, kept};
ghost use Rattle.room_store.specs.Faults.{join_refusal, IsRefusedBy};
ghost use Rattle.room_store.specs.Planning.{entries_of, new_update, plan_refusal, IsAnswer};
ghost use Rattle.room_store.specs.Stored.{held, IsOpen};
ghost use Rattle.room_store.specs.Undoing.{before_of, undone, gone, CanGo, CanUndo};

use crate::fault::StoreFault;
use crate::group::Group;
use crate::store::Store;
use crate::taking::{News, Taken, news_of, ops_of, step_each};
use crate::undo::{Undo, back_all};
use room_apply::Edits;
use room_bytes::{Entry, Session, write_group};
use room_journal::Journal;
use room_json::{Copied, NoMemory, Seq, Sound, Text};
use room_log::{follows_exactly, taken_follows, valid_after};
use room_nodes::{Op, Ops};
use room_replay::set_last;
use room_snapshot::Snapshot;
use room_tree::Tree;
use std::alloc::Global;

/// The group with an entry more.
fn grown(alloc: Global, g: &Group, e: Entry) -> Result<Group, NoMemory>
    requires group { all_written g.now.entries ≡ true }
    requires written { is_written Two (logged e) ≡ true }
    ensures entries { IfOk result (λ h. h.entries ≡ g.now.entries ++ logged e ∷ []) }
    ensures ready { IfOk result (λ h. IsReady h.ready) }
    ensures reads { IfOk result (λ h. group_of (body_of h.ready) ≡ Some h.entries) }
{
    let mut entries = g.entries.copy(alloc)?;
    entries.push(e)?;
    let bytes = write_group(alloc, &entries)?;
    let ready = Journal::ready(alloc, bytes.as_slice())?;
    Ok(Group { entries, ready })
}

/// Adds what takes an entry back, where there is room.
fn keep_undo(undo: &mut Vec<Undo>, one: Undo)
    requires room { vec_len undo.old < vec_capacity undo.old }
    ensures items { undo.new.items ≡ undo.old.items ++ one ∷ [] }
{
    match undo.push(one) {
        Ok(()) => (),
        Err(_) => unreachable!(),
    }
}

/// What operations of the type are.
#[tactic(auto, using(room_nodes::proofs::Soundness::all_ops))]
fn sound_ops(ops: &Ops)
    ensures { AreSoundOps ops.now }
{
    ops.sound();
}

/// Adds a session to a state. A refused call changes nothing.
fn add_join<T: Tree>(
    alloc: Global,
    state: &mut Snapshot<T>,
    undo: &mut Vec<Undo>,
    g: &Group,
    actor: u32,
    key: u64,
    name: &Text,
) -> Result<Group, NoMemory>
    requires group { all_written g.now.entries ≡ true }
    requires can { CanUndo (len (T.nodes state.old.tree) + T.spare state.old.tree)
        (state_of state.old.count state.old.sessions (T.nodes state.old.tree)) undo.old.items }

    ensures state { OnOk result (state_of state.new.count state.new.sessions (T.nodes state.new.tree)
        ≡ joined (state_of state.old.count state.old.sessions (T.nodes state.old.tree)) key name.now) }
    ensures before { OnOk result
        (before_of (state_of state.new.count state.new.sessions (T.nodes state.new.tree)) undo.new.items
        ≡ Some (undone (state_of state.old.count state.old.sessions (T.nodes state.old.tree)) undo.old.items)) }
    ensures err { OnErr result ((state_of state.new.count state.new.sessions (T.nodes state.new.tree)
        ≡ state_of state.old.count state.old.sessions (T.nodes state.old.tree))
        × (undo.new.items ≡ undo.old.items)) }
    ensures can { CanUndo (len (T.nodes state.new.tree) + T.spare state.new.tree)
        (state_of state.new.count state.new.sessions (T.nodes state.new.tree)) undo.new.items }
    ensures entries { IfOk result (λ h. h.entries ≡ g.now.entries ++ Join actor key name.now ∷ []) }
    ensures ready { IfOk result (λ h. IsReady h.ready) }
    ensures reads { IfOk result (λ h. group_of (body_of h.ready) ≡ Some h.entries) }
{
    undo.reserve(1)?;
    let group = grown(
        alloc,
        g,
        Entry::Join {
            actor,
            key,
            name: name.copy(alloc)?,
        },
    )?;
    let name = name.copy(alloc)?;
    state.sessions.push(Session { key, last: 0, name })?;
    keep_undo(undo, Undo::Joined);
    Ok(group)
}

/// What a planning of operations made: the group with the update, the operations as they settled, and the last clock.
#[derive(Drop)]
struct Planned {
    group: Group,
    ops: Ops,
    last: u64,
}

/// Steps a tree by the operations beyond the last clock, as far as there is memory, and makes what the update wants.
fn prepare<T: Tree>(
    alloc: Global,
    t: &mut T,
    steps: &mut Vec<Edits>,
    g: &Group,
    actor: u32,
    last: u64,
    ops: &[Op],
) -> Result<Planned, NoMemory>
    requires room { vec_len steps.old + length ops.now ≤ vec_capacity steps.old }
    requires none { steps.old.items ≡ [] }
    requires group { all_written g.now.entries ≡ true }
    requires written { is_written Two (Updated (new_update (T.nodes t.old) actor last ops.now)) ≡ true }
    requires bound { last_from (last + 1) ((new_update (T.nodes t.old) actor last ops.now).bodies) ≤ most }

    ensures tree { OnOk result
        (T.nodes t.new ≡ fold (T.nodes t.old) ((new_update (T.nodes t.old) actor last ops.now).bodies)) }
    ensures gone { gone (T.nodes t.new) steps.new.items ≡ T.nodes t.old }
    ensures can { CanGo (len (T.nodes t.new) + T.spare t.new) (T.nodes t.new) steps.new.items }
    ensures sum { len (T.nodes t.old) + T.spare t.old ≤ len (T.nodes t.new) + T.spare t.new }
    ensures ops { IfOk result (λ p. p.ops ≡ ops_in (new_update (T.nodes t.old) actor last ops.now)) }
    ensures last { IfOk result (λ p.
        p.last ≡ last_from (last + 1) ((new_update (T.nodes t.old) actor last ops.now).bodies)) }
    ensures entries { IfOk result (λ p. p.group.entries
        ≡ g.now.entries ++ Updated (new_update (T.nodes t.old) actor last ops.now) ∷ []) }
    ensures ready { IfOk result (λ p. IsReady p.group.ready) }
    ensures reads { IfOk result (λ p. group_of (body_of p.group.ready) ≡ Some p.group.entries) }
{
    let bodies = step_each(alloc, t, last, ops, steps)?;
    let settled = ops_of(alloc, actor, last + 1, bodies.as_slice())?;
    let end = last + bodies.len();
    let entry = Entry::Update {
        actor,
        first: last + 1,
        bodies,
    };
    let group = grown(alloc, g, entry)?;
    Ok(Planned {
        group,
        ops: settled,
        last: end,
    })
}

/// Adds an update to a state: the operations beyond the last clock, as they settle. A refused call changes nothing.
fn add_update<T: Tree>(
    alloc: Global,
    state: &mut Snapshot<T>,
    undo: &mut Vec<Undo>,
    g: &Group,
    actor: u32,
    last: u64,
    ops: &[Op],
) -> Result<Planned, NoMemory>
    requires group { all_written g.now.entries ≡ true }
    requires last { last ≡ last_of (map kept state.old.sessions) actor }
    requires follows { follows (state_of state.old.count state.old.sessions (T.nodes state.old.tree))
        (Updated (new_update (T.nodes state.old.tree) actor last ops.now)) ≡ true }
    requires can { CanUndo (len (T.nodes state.old.tree) + T.spare state.old.tree)
        (state_of state.old.count state.old.sessions (T.nodes state.old.tree)) undo.old.items }

    ensures state { OnOk result (state_of state.new.count state.new.sessions (T.nodes state.new.tree)
        ≡ updated (state_of state.old.count state.old.sessions (T.nodes state.old.tree))
        (new_update (T.nodes state.old.tree) actor last ops.now)) }
    ensures before { OnOk result
        (before_of (state_of state.new.count state.new.sessions (T.nodes state.new.tree)) undo.new.items
        ≡ Some (undone (state_of state.old.count state.old.sessions (T.nodes state.old.tree)) undo.old.items)) }
    ensures err { OnErr result ((state_of state.new.count state.new.sessions (T.nodes state.new.tree)
        ≡ state_of state.old.count state.old.sessions (T.nodes state.old.tree))
        × (undo.new.items ≡ undo.old.items)) }
    ensures can { CanUndo (len (T.nodes state.new.tree) + T.spare state.new.tree)
        (state_of state.new.count state.new.sessions (T.nodes state.new.tree)) undo.new.items }
    ensures ops { IfOk result (λ p. p.ops ≡ ops_in (new_update (T.nodes state.old.tree) actor last ops.now)) }
    ensures entries { IfOk result (λ p. p.group.entries
        ≡ g.now.entries ++ Updated (new_update (T.nodes state.old.tree) actor last ops.now) ∷ []) }
    ensures ready { IfOk result (λ p. IsReady p.group.ready) }
    ensures reads { IfOk result (λ p. group_of (body_of p.group.ready) ≡ Some p.group.entries) }
{
    follows_exactly();
    undo.reserve(1)?;
    let mut steps: Vec<Edits> = Vec::new(alloc);
    steps.reserve(ops.len())?;
    match prepare(alloc, &mut state.tree, &mut steps, g, actor, last, ops) {
        Ok(planned) => {
            let count = state.count;
            let sessions = std::mem::replace(&mut state.sessions, Seq::new(alloc));
            state.sessions = set_last(sessions, actor, planned.last);
            state.count = count + 1;
            keep_undo(
                undo,
                Undo::Updated {
                    count,
                    actor,
                    last,
                    steps: Seq::from_vec(steps),
                },
            );
            Ok(planned)
        },
        Err(NoMemory) => {
            back_all(&mut state.tree, &mut steps);
            Err(NoMemory)
        },
    }
}

impl<T: Tree> Store<T> {
    /// Adds a new session of the next actor to the group, and answers the actor. A refused call changes nothing.
    pub fn plan_join(
        &mut self,
        alloc: Global,
        g: &mut Group,
        key: u64,
        name: &Text,
    ) -> Result<u32, StoreFault>
        requires group { IsOpen self.old g.old }

        ensures group { IsOpen self.new g.new }
        ensures joined { IfOk result (λ a. (a ≡ length self.old.state.sessions + 1)
            × (self.new.state ≡ joined self.old.state key name.now)) }
        ensures entries { IfOk result (λ a. g.new.entries ≡ g.old.entries ++ Join a key name.now ∷ []) }
        ensures held { held self.new ≡ held self.old }
        ensures refused { OnErr result ((self.new ≡ self.old) × (g.new ≡ g.old)) }
        // `Broken` exactly of a broken store, then `SessionsFull` exactly where the limit is reached, else `Memory`.
        ensures refusal { IsRefusedBy
            (join_refusal self.old.broken (length self.old.state.sessions) self.old.limits.sessions) result }
        ensures place { self.new.place ≡ self.old.place }
        ensures broken { self.new.broken ≡ self.old.broken }
        ensures limits { self.new.limits ≡ self.old.limits }
    {
        valid_after();
        name.as_str();
        self.kept.check()?;
        let count = self.sessions();
        if count >= self.limits.sessions {
            return Err(StoreFault::SessionsFull(count));
        }
        let actor = count + 1;
        let group = add_join(
            alloc,
            &mut self.state,
            &mut self.undo,
            &*g,
            actor,
            key,
            name,
        )?;
        *g = group;
        Ok(actor)
    }

    /// Adds what is new of the operations of an actor that has a session, as they settle, and answers it; nothing,
    /// where nothing is new. No value of theirs is too deep. A refused call changes nothing.
    pub fn plan(
        &mut self,
        alloc: Global,
        g: &mut Group,
        actor: u32,
        ops: &Ops,
    ) -> Result<Taken, StoreFault>
        requires group { IsOpen self.old g.old }
        requires session { IsSome (session_of self.old.state.sessions actor) }
        requires shallow { AreShallowOps ops.now }

        ensures group { IsOpen self.new g.new }
        // `Broken` exactly of a broken store, then `Gap` exactly where the log has one, then `Full` exactly where
        // something is taken and the limit is reached, else `Memory`.
        ensures refusal { IsRefusedBy (plan_refusal self.old.broken self.old.state.count self.old.limits.updates
            (take self.old.state actor ops.now)) result }
        ensures answer { IfOk result (IsAnswer self.old.state (take self.old.state actor ops.now)) }
        ensures state { OnOk result
            (self.new.state ≡ state_after self.old.state (entries_of (take self.old.state actor ops.now))) }
        ensures entries { OnOk result
            (g.new.entries ≡ g.old.entries ++ entries_of (take self.old.state actor ops.now)) }
        ensures held { held self.new ≡ held self.old }
        ensures refused { OnErr result ((self.new ≡ self.old) × (g.new ≡ g.old)) }
        ensures place { self.new.place ≡ self.old.place }
        ensures broken { self.new.broken ≡ self.old.broken }
        ensures limits { self.new.limits ≡ self.old.limits }
    {
        valid_after();
        taken_follows();
        sound_ops(ops);
        self.kept.check()?;
        let last = self.last_of(actor);
        match news_of(last, ops.as_slice()) {
            News::Nothing => Ok(Taken::Nothing),
            News::Gap(expected, got) => Err(StoreFault::Gap(expected, got)),
            News::RunOn => {
                let count = self.state.count;
                if count >= self.limits.updates {
                    return Err(StoreFault::Full(count));
                }
                let planned = add_update(
                    alloc,
                    &mut self.state,
                    &mut self.undo,
                    &*g,
                    actor,
                    last,
                    ops.as_slice(),
                )?;
                *g = planned.group;
                Ok(Taken::Update {
                    seq: count + 1,
                    ops: planned.ops,
                })
            },
        }
    }
}
