//! Removed nodes, restored by creates.
ghost use Rattle.std.specs.Prelude.{◌≡◌, ◌++◌, ◌∷◌, [], OnOk, Some, is_some, true};
ghost use Rattle.std.specs.Option.{option_copied};
ghost use Rattle.std.specs.FinMap.{get};
ghost use Rattle.room_model.specs.Calls.{op_change};
ghost use Rattle.room_nodes.specs.Reversal.{child_restored, creation, node_restored};
ghost use Rattle.room_back.specs.Back.{as_changes, restored_within};

use room_ids::NodeId;
use room_json::{Copied, NoMemory, Text};
use room_nodes::{Body, Change, Changes, Node};
use room_tree::Tree;
use std::alloc::Global;

/// No node lies deeper than this below the root.
const MAX_NODE_DEPTH: u64 = 60;

/// Puts an operation behind others.
pub(crate) fn push(back: &mut Changes, body: Body) -> Result<(), NoMemory>
    ensures { OnOk result (back.new ≡ back.old ++ op_change body ∷ []) }
{
    back.push(Change::Op(body))
}

fn node_there<'a, T: Tree>(t: &'a T, id: &NodeId) -> &'a Node
    requires { is_some (get (T.nodes t.now) id.now) ≡ true }
    ensures { Some result.now ≡ get (T.nodes t.now) id.now }
{
    match t.node(id) {
        Some(node) => node,
        None => unreachable!(),
    }
}

/// Creates a node again, where there is one.
fn create_again(
    alloc: Global,
    id: &NodeId,
    node: Option<&Node>,
    back: &mut Changes,
) -> Result<(), NoMemory>
    ensures { OnOk result (back.new ≡ back.old ++ as_changes (creation id.now (option_copied node.entry))) }
{
    match node {
        Some(node) => push(
            back,
            Body::Create {
                node: *id,
                parent: node.parent,
                key: node.key.copy(alloc)?,
                replaces: None,
                kind: node.kind.copy(alloc)?,
            },
        ),
        None => Ok(()),
    }
}

/// Restores a node, and then what lies some levels below it.
fn restore_within<T: Tree>(
    alloc: Global,
    t: &T,
    id: &NodeId,
    levels: u64,
    back: &mut Changes,
) -> Result<(), NoMemory>
    ensures { OnOk result (back.new ≡ back.old ++ restored_within levels (T.nodes t.now) id.now) }
{
    create_again(alloc, id, t.node(id), back)?;
    if levels == 0 {
        return Ok(());
    }
    let mut key: Option<&Text> = None;
    while let Some(child) = t.next_child(id, key) {
        let node = node_there(t, &child);
        restore_within(alloc, t, &child, levels - 1, back)?;
        key = Some(&node.key);
    }
    Ok(())
}

/// Restores a node with all that lies below it.
#[tactic(auto, unfolding(room_nodes::specs::Preorder::preorder))]
pub(crate) fn restore<T: Tree>(
    alloc: Global,
    t: &T,
    id: &NodeId,
    back: &mut Changes,
) -> Result<(), NoMemory>
    ensures { OnOk result (back.new ≡ back.old ++ as_changes (node_restored (T.nodes t.now) id.now)) }
{
    restore_within(alloc, t, id, MAX_NODE_DEPTH, back)
}

/// Restores a child, where there is one.
pub(crate) fn restore_child<T: Tree>(
    alloc: Global,
    t: &T,
    child: Option<NodeId>,
    back: &mut Changes,
) -> Result<(), NoMemory>
    ensures { OnOk result (back.new ≡ back.old ++ as_changes (child_restored (T.nodes t.now) child)) }
{
    match child {
        Some(id) => restore(alloc, t, &id, back),
        None => Ok(()),
    }
}
