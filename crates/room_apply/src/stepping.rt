//! A step: an operation settles, what it removes goes, and what is left of it is done.
ghost use Rattle.std.specs.Prelude.{◌≡◌, ◌≤◌, ◌+◌, [], vec_len, vec_capacity, None, IfOk, OnOk, OnErr, true, false};
ghost use Rattle.std.specs.FinMap.{len};
ghost use Rattle.room_nodes.specs.Steps.{effect, is_void, settled_body, step as step_of};
ghost use Rattle.room_apply.specs.Edits.{CanTurnAll, HasPlaces, KeepsUndo, places_all, some_turn, turned_all};
ghost use Rattle.room_apply.specs.Left.{lefts};
ghost use Rattle.room_apply.specs.Ways.{AreEdits, CanGoBack, node_count, nodes_of, stepped};

use crate::acting::{Left, act};
use crate::edits::{Edits, count_of};
use crate::turning::{make_room, turn_one, undo_all};
use room_json::{Members, NoMemory};
use room_nodes::{Body, Op, Turn};
use room_tree::{Tree, live};
use std::alloc::Global;

/// The edits of a void step.
fn no_edits(alloc: Global) -> Edits
    ensures { result ≡ record { done = []; undone = []; fields = None; last = None; names = [] } }
{
    Edits {
        done: Vec::new(alloc),
        undone: Vec::new(alloc),
        fields: None,
        last: None,
        names: Members::new(alloc),
    }
}

/// Does what is left of an operation, for which there is memory, and answers the edits.
fn finish<T: Tree>(t: &mut T, left: Left, done: Vec<Turn>, undone: Vec<Turn>) -> Edits
    requires can { CanTurnAll (T.nodes t.old) (lefts left.fields left.last) }
    requires place { HasPlaces (T.spare t.old) (lefts left.fields left.last) }
    requires room { vec_len done ≤ vec_capacity undone }
    requires empty { undone.items ≡ [] }
    ensures nodes { T.nodes t.new ≡ turned_all (T.nodes t.old) (lefts left.fields left.last) }
    ensures spare { T.spare t.new ≡ places_all (T.spare t.old) (lefts left.fields left.last) }
    ensures edits { result ≡ stepped (T.nodes t.old) done.items left.fields left.last left.names }
{
    let mut fields = left.fields;
    let mut last = left.last;
    turn_one(t, &mut fields);
    turn_one(t, &mut last);
    Edits {
        done,
        undone,
        fields,
        last,
        names: left.names,
    }
}

/// Takes the memory for what is left of a step that removed so many nodes, and for the way back and forth.
fn make_ready<T: Tree>(
    alloc: Global,
    t: &mut T,
    last: &Option<Turn>,
    removed: usize,
) -> Result<Vec<Turn>, NoMemory>
    ensures nodes { T.nodes t.new ≡ T.nodes t.old }
    ensures kept { T.spare t.old ≤ T.spare t.new }
    ensures ok { OnOk result (removed + node_count last.now + node_count last.now ≤ T.spare t.new) }
    ensures err { OnErr result (T.spare t.new ≡ T.spare t.old) }
    ensures undone { IfOk result (λ v. (v.items ≡ []) × (removed ≤ vec_capacity v)) }
{
    let mut undone: Vec<Turn> = Vec::new(alloc);
    make_room(&mut undone, removed)?;
    let put = count_of(last);
    t.reserve(removed as u64 + put + put)?;
    Ok(undone)
}

/// Does what a settled operation does, as far as there is memory.
fn attempt<T: Tree>(
    alloc: Global,
    t: &mut T,
    body: Body,
    done: &mut Vec<Turn>,
) -> Result<Edits, NoMemory>
    requires live { is_void (T.nodes t.old) body ≡ false }
    requires settled { settled_body (T.nodes t.old) body ≡ body }
    requires empty { done.old.items ≡ [] }
    ensures ok { OnOk result (T.nodes t.new ≡ effect (T.nodes t.old) body) }
    ensures err { OnErr result (KeepsUndo (T.nodes t.old) (T.spare t.old) done.old.items (T.nodes t.new)
        (T.spare t.new) done.new.items) }
    ensures edits { IfOk result (λ e. AreEdits (T.nodes t.old) body (T.nodes t.new) e) }
    ensures spare { IfOk result (λ e. nodes_of e ≤ T.spare t.new) }
    ensures sum { OnOk result (len (T.nodes t.old) + T.spare t.old ≤ len (T.nodes t.new) + T.spare t.new) }
{
    let left = act(alloc, t, body, done)?;
    match make_ready(alloc, t, &left.last, done.len()) {
        Ok(undone) => {
            let done = std::mem::replace(done, Vec::new(alloc));
            Ok(finish(t, left, done, undone))
        },
        Err(NoMemory) => {
            drop(left);
            Err(NoMemory)
        },
    }
}

/// Does what a settled operation does, or nothing.
fn perform<T: Tree>(alloc: Global, t: &mut T, body: Body) -> Result<Edits, NoMemory>
    requires live { is_void (T.nodes t.old) body ≡ false }
    requires settled { settled_body (T.nodes t.old) body ≡ body }
    ensures ok { OnOk result (T.nodes t.new ≡ effect (T.nodes t.old) body) }
    ensures err { OnErr result ((T.nodes t.new ≡ T.nodes t.old) × (T.spare t.new ≡ T.spare t.old)) }
    ensures edits { IfOk result (λ e. AreEdits (T.nodes t.old) body (T.nodes t.new) e) }
    ensures spare { IfOk result (λ e. nodes_of e ≤ T.spare t.new) }
    ensures sum { OnOk result (len (T.nodes t.old) + T.spare t.old ≤ len (T.nodes t.new) + T.spare t.new) }
{
    let mut done = Vec::new(alloc);
    match attempt(alloc, t, body, &mut done) {
        Ok(edits) => Ok(edits),
        Err(NoMemory) => {
            undo_all(t, &mut done);
            Err(NoMemory)
        },
    }
}

/// Steps a map by an operation: settles it, and has its effect. A void operation changes nothing. The edits go back and
/// forth; there are spare places for all nodes that the step removed or put. Where memory is short the map stays as it
/// was, with as many spare places.
pub fn step<T: Tree>(alloc: Global, t: &mut T, op: &Op) -> Result<Edits, NoMemory>
    ensures ok { OnOk result (T.nodes t.new ≡ step_of (T.nodes t.old) op.now.body) }
    ensures void { is_void (T.nodes t.old) op.now.body ≡ true → (T.nodes t.new ≡ T.nodes t.old)
        × (T.spare t.new ≡ T.spare t.old) }
    ensures err { OnErr result ((T.nodes t.new ≡ T.nodes t.old) × (T.spare t.new ≡ T.spare t.old)) }
    ensures edits { IfOk result (λ e. AreEdits (T.nodes t.old) op.now.body (T.nodes t.new) e) }
    ensures can { IfOk result (λ e. CanGoBack (T.nodes t.new) (T.spare t.new) e) }
    ensures spare { IfOk result (λ e. nodes_of e ≤ T.spare t.new) }
    ensures sum { len (T.nodes t.old) + T.spare t.old ≤ len (T.nodes t.new) + T.spare t.new }
{
    match live(alloc, t, &op.body)? {
        Some(body) => perform(alloc, t, body),
        None => Ok(no_edits(alloc)),
    }
}
