//! Changes taken back and made again.
ghost use Rattle.std.specs.Prelude.{◌≡◌, ◌+◌, ◌<◌, ◌≤◌, ◌++◌, ◌∷◌, [], ℕ, vec_len, vec_capacity, OnOk, option_map};
ghost use Rattle.room_nodes.specs.Shape.{IsLeaf};
ghost use Rattle.std.specs.FinMap.{remove};
ghost use Rattle.room_nodes.specs.Turns.{turned, reverse, CanTurn};
ghost use Rattle.room_apply.specs.Edits.{turned_all, reverse_all, CanTurnAll, places, HasPlace, places_all, HasPlaces};
ghost use Rattle.room_apply.specs.Edits.{KeepsUndo, some_turn};
ghost use Rattle.room_apply.specs.Within.{ArePuts};

use room_ids::NodeId;
use room_json::NoMemory;
use room_nodes::Turn;
use room_tree::Tree;

fn taking(id: &NodeId) -> Turn
    ensures { result ≡ Turn.Cut id.now }
{
    Turn::Cut(*id)
}

/// Takes one change back, and answers what makes it again.
pub(crate) fn turn<T: Tree>(t: &mut T, change: Turn) -> Turn
    requires can { CanTurn (T.nodes t.old) change }
    requires place { HasPlace (T.spare t.old) change }
    ensures nodes { T.nodes t.new ≡ turned (T.nodes t.old) change }
    ensures result { result ≡ reverse (T.nodes t.old) change }
    ensures spare { T.spare t.new ≡ places (T.spare t.old) change }
{
    match change {
        Turn::Put(id, node) => {
            let again = taking(&id);
            t.put(id, node);
            again
        },
        Turn::Cut(id) => {
            let node = t.remove_leaf(&id);
            Turn::Put(id, node)
        },
        Turn::Fields(id, fields) => {
            let old = t.swap_fields(&id, fields);
            Turn::Fields(id, old)
        },
        Turn::Key(id, key) => {
            let old = t.swap_key(&id, key);
            Turn::Key(id, old)
        },
    }
}

/// Adds a change where there is room.
pub(crate) fn keep(changes: &mut Vec<Turn>, change: Turn)
    requires room { vec_len changes.old < vec_capacity changes.old }
    ensures items { changes.new.items ≡ changes.old.items ++ change ∷ [] }
    ensures len { vec_len changes.new ≡ vec_len changes.old + 1 }
    ensures capacity { vec_capacity changes.old ≤ vec_capacity changes.new }
{
    match changes.push(change) {
        Ok(()) => (),
        Err(_) => unreachable!(),
    }
}

/// Takes all changes back, the last first, and keeps what makes them again.
pub(crate) fn turn_all<T: Tree>(t: &mut T, from: &mut Vec<Turn>, to: &mut Vec<Turn>)
    requires can { CanTurnAll (T.nodes t.old) from.old.items }
    requires place { HasPlaces (T.spare t.old) from.old.items }
    requires room { vec_len to.old + vec_len from.old ≤ vec_capacity to.old }
    ensures nodes { T.nodes t.new ≡ turned_all (T.nodes t.old) from.old.items }
    ensures spare { T.spare t.new ≡ places_all (T.spare t.old) from.old.items }
    ensures from { from.new.items ≡ [] }
    ensures to { to.new.items ≡ to.old.items ++ reverse_all (T.nodes t.old) from.old.items }
    ensures len { vec_len to.new ≡ vec_len to.old + vec_len from.old }
    ensures capacity { (vec_capacity from.new ≡ vec_capacity from.old) × (vec_capacity to.old ≤ vec_capacity to.new) }
{
    while let Some(change) = from.pop() {
        let again = turn(t, change);
        keep(to, again);
    }
}

/// Makes room for as many more changes.
pub(crate) fn make_room(changes: &mut Vec<Turn>, more: usize) -> Result<(), NoMemory>
    ensures items { changes.new.items ≡ changes.old.items }
    ensures len { vec_len changes.new ≡ vec_len changes.old }
    ensures room { OnOk result (vec_len changes.new + more ≤ vec_capacity changes.new) }
{
    match changes.reserve(more) {
        Ok(()) => Ok(()),
        Err(_) => Err(NoMemory),
    }
}

/// Takes a leaf out, and notes what puts it again.
pub(crate) fn cut_leaf<T: Tree>(t: &mut T, id: NodeId, done: &mut Vec<Turn>) -> Result<(), NoMemory>
    requires { IsLeaf (T.nodes t.old) id }
    ensures ok { OnOk result (T.nodes t.new ≡ remove (T.nodes t.old) id) }
    ensures puts { ArePuts done.old.items → ArePuts done.new.items }
    ensures undo { KeepsUndo (T.nodes t.old) (T.spare t.old) done.old.items (T.nodes t.new)
        (T.spare t.new) done.new.items }
{
    make_room(done, 1)?;
    let back = turn(t, Turn::Cut(id));
    keep(done, back);
    Ok(())
}

/// Takes one change back, if there is one, and keeps what makes it again.
pub(crate) fn turn_one<T: Tree>(t: &mut T, change: &mut Option<Turn>)
    requires can { CanTurnAll (T.nodes t.old) (some_turn change.old) }
    requires place { HasPlaces (T.spare t.old) (some_turn change.old) }
    ensures nodes { T.nodes t.new ≡ turned_all (T.nodes t.old) (some_turn change.old) }
    ensures spare { T.spare t.new ≡ places_all (T.spare t.old) (some_turn change.old) }
    ensures result { change.new ≡ option_map (reverse (T.nodes t.old)) change.old }
{
    match change.take() {
        Some(old) => {
            *change = Some(turn(t, old));
        },
        None => (),
    }
}

/// Takes all changes back.
pub(crate) fn undo_all<T: Tree>(t: &mut T, done: &mut Vec<Turn>)
    requires can { CanTurnAll (T.nodes t.old) done.old.items }
    requires place { HasPlaces (T.spare t.old) done.old.items }
    ensures nodes { T.nodes t.new ≡ turned_all (T.nodes t.old) done.old.items }
    ensures spare { T.spare t.new ≡ places_all (T.spare t.old) done.old.items }
{
    while let Some(change) = done.pop() {
        drop(turn(t, change));
    }
}
