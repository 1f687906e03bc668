//! A copy of a tree of any kind.
ghost use Rattle.std.specs.Prelude.{◌≡◌, ◌+◌, ◌≤◌, ◌<◌, ◌∷◌, [], ◌++◌, IfOk, OnOk, Some, None, true, is_some, vec_len};
ghost use Rattle.std.specs.FinMap.{get, insert, len};
ghost use Rattle.room_nodes.specs.Shape.{IsFree, empty_tree, is_root_node};
ghost use Rattle.room_nodes.specs.Primitives.{fields_in};
ghost use Rattle.room_ids.specs.declared.ids.NodeId.TheVariants.{Root as TheRoot};
ghost use Rattle.room_tree.specs.Copying.{IsCopying, IsInHand, Nothing, bare_copy};

use crate::tree::Tree;
use room_ids::NodeId;
use room_json::{Copied, NoMemory, Text};
use room_nodes::{Kind, Node};
use std::alloc::Global;

fn node_there<'a, T: Tree>(t: &'a T, id: &NodeId) -> &'a Node
    requires { is_some (get (T.nodes t.now) id.now) ≡ true }
    ensures { Some result.now ≡ get (T.nodes t.now) id.now }
{
    match t.node(id) {
        Some(node) => node,
        None => unreachable!(),
    }
}

fn put_copy<T: Tree>(alloc: Global, copy: &mut T, id: &NodeId, node: &Node) -> Result<(), NoMemory>
    requires free { IsFree (T.nodes copy.old) id.now node.now }
    requires room { 0 < T.spare copy.old }
    ensures nodes { OnOk result (T.nodes copy.new ≡ insert (T.nodes copy.old) id.now node.now) }
    ensures spare { OnOk result (T.spare copy.new + 1 ≡ T.spare copy.old) }
{
    copy.put(*id, node.copy(alloc)?);
    Ok(())
}

fn push(ids: &mut Vec<NodeId>, id: NodeId) -> Result<(), NoMemory>
    ensures items { OnOk result (ids.new.items ≡ ids.old.items ++ id ∷ []) }
    ensures len { OnOk result (vec_len ids.new ≡ vec_len ids.old + 1) }
{
    ids.push(id)?;
    Ok(())
}

/// Puts copies of a node's children, and notes the children.
fn copy_children<T: Tree>(
    alloc: Global,
    t: &T,
    copy: &mut T,
    x: &NodeId,
    todo: &mut Vec<NodeId>,
) -> Result<(), NoMemory>
    requires hand { IsInHand (T.nodes t.now) (T.nodes copy.old) todo.old.items x.now None }
    requires room { len (T.nodes t.now) ≤ len (T.nodes copy.old) + T.spare copy.old }
    ensures copying { OnOk result (IsCopying (T.nodes t.now) (T.nodes copy.new) todo.new.items Nothing) }
    ensures room { OnOk result (len (T.nodes t.now) ≤ len (T.nodes copy.new) + T.spare copy.new) }
    ensures size { OnOk result (len (T.nodes copy.new) + vec_len todo.old ≡ len (T.nodes copy.old) + vec_len todo.new) }
{
    let mut key: Option<&Text> = None;
    while let Some(child) = t.next_child(x, key) {
        let node = node_there(t, &child);
        put_copy(alloc, copy, &child, node)?;
        push(todo, child)?;
        key = Some(&node.key);
    }
    Ok(())
}

/// Gives the copy's root the fields of the tree's.
fn copy_root<T: Tree>(alloc: Global, t: &T, copy: &mut T) -> Result<(), NoMemory>
    requires { T.nodes copy.old ≡ empty_tree }
    ensures nodes { OnOk result (T.nodes copy.new ≡ bare_copy (T.nodes t.now)) }
    ensures spare { T.spare copy.new ≡ T.spare copy.old }
{
    let root = node_there(t, &NodeId::Root);
    if let Kind::Object(fields) = &root.kind {
        let fields = fields.copy(alloc)?;
        drop(copy.swap_fields(&NodeId::Root, fields));
    }
    Ok(())
}

/// Another tree with the same nodes.
pub fn copy_of<T: Tree>(alloc: Global, t: &T) -> Result<T, NoMemory>
    ensures { IfOk result (λ u. T.nodes u ≡ T.nodes t.now) }
{
    let mut copy = T::empty(alloc)?;
    copy.reserve(t.count())?;
    copy_root(alloc, t, &mut copy)?;
    let mut todo = Vec::new(alloc);
    push(&mut todo, NodeId::Root)?;
    while let Some(x) = todo.pop() {
        copy_children(alloc, t, &mut copy, &x, &mut todo)?;
    }
    Ok(copy)
}
