//! Walks over the items of a list.
ghost use Rattle.std.specs.Prelude.{◌≡◌, ◌≤◌, ◌+◌, if◌then◌else◌, length, true, Some, is_some, IfOk};
ghost use Rattle.std.specs.Option.{option_copied};
ghost use Rattle.std.specs.FinMap.{get};
ghost use Rattle.room_nodes.specs.Shape.{children};
ghost use Rattle.room_model.specs.Edits.{clear_bodies, id_at};
ghost use Rattle.room_effect.specs.Beside.{AreNeighbours, IsListAt, left_of, right_of};
ghost use Rattle.room_list.specs.Listing.{end};

use room_ids::NodeId;
use room_json::{NoMemory, Text};
use room_nodes::{Bodies, Body, Node};
use room_tree::Tree;
use std::alloc::Global;

/// A gap behind every item.
pub(crate) const END: u64 = u64::MAX;

/// What a walk over a list finds: how many items there are, the item at an index, and the positions beside a gap.
#[derive(Clone, Copy)]
pub(crate) struct Found<'a> {
    pub(crate) count: u64,
    pub(crate) item: Option<NodeId>,
    pub(crate) left: Option<&'a Text>,
    pub(crate) right: Option<&'a Text>,
}

fn either<'a>(new: bool, key: &'a Text, old: Option<&'a Text>) -> Option<&'a Text>
    ensures { option_copied result ≡ (if new then Some key.now else option_copied old.entry) }
{
    if new { Some(key) } else { old }
}

fn either_id(new: bool, id: NodeId, old: Option<NodeId>) -> Option<NodeId>
    ensures { result ≡ (if new then Some id else old) }
{
    if new { Some(id) } else { old }
}

/// One more, unless there is no memory for so many.
pub(crate) fn more(count: u64) -> Result<u64, NoMemory>
    ensures sum { IfOk result (λ n. n ≡ count + 1) }
    ensures few { IfOk result (λ n. n ≤ end) }
{
    count.checked_add(1).ok_or(NoMemory)
}

fn node_there<'a, T: Tree>(t: &'a T, id: &NodeId) -> &'a Node
    requires { is_some (get (T.nodes t.now) id.now) ≡ true }
    ensures { Some result.now ≡ get (T.nodes t.now) id.now }
{
    match t.node(id) {
        Some(node) => node,
        None => unreachable!(),
    }
}

/// Walks over a list once, and copies nothing.
pub(crate) fn look<'a, T: Tree>(
    t: &'a T,
    list: &NodeId,
    index: u64,
    gap: u64,
) -> Result<Found<'a>, NoMemory>
    requires { IsListAt (T.nodes t.now) list.now }
    ensures count { IfOk result (λ f. f.count ≡ length (children (T.nodes t.now) list.now)) }
    ensures item { IfOk result (λ f. f.item ≡ id_at (children (T.nodes t.now) list.now) index) }
    ensures left { IfOk result (λ f. option_copied f.left ≡ left_of gap (children (T.nodes t.now) list.now)) }
    ensures right { IfOk result (λ f. option_copied f.right ≡ right_of gap (children (T.nodes t.now) list.now)) }
    ensures few { IfOk result (λ f. f.count ≤ end) }
    ensures beside { IfOk result (λ f. AreNeighbours (option_copied f.left) (option_copied f.right)) }
{
    let mut count: u64 = 0;
    let mut item = None;
    let mut left: Option<&Text> = None;
    let mut right: Option<&Text> = None;
    let mut key: Option<&Text> = None;
    while let Some(child) = t.next_child(list, key) {
        let node = node_there(t, &child);
        item = either_id(count == index, child, item);
        left = either(count < gap, &node.key, left);
        right = either(count == gap, &node.key, right);
        count = more(count)?;
        key = Some(&node.key);
    }
    Ok(Found {
        count,
        item,
        left,
        right,
    })
}

/// A delete of each child, in order. Copies nothing.
pub(crate) fn deletes<T: Tree>(alloc: Global, t: &T, list: &NodeId) -> Result<Bodies, NoMemory>
    ensures { IfOk result (λ bs. bs ≡ clear_bodies (children (T.nodes t.now) list.now)) }
{
    let mut bodies = Bodies::new(alloc);
    let mut key: Option<&Text> = None;
    while let Some(child) = t.next_child(list, key) {
        let node = node_there(t, &child);
        bodies.push(Body::Delete { node: child })?;
        key = Some(&node.key);
    }
    Ok(bodies)
}
