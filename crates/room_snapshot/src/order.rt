//! The nodes of a tree in preorder.
ghost use Rattle.std.specs.Prelude.{◌≡◌, ◌++◌, flat_map, map, IfOk, OnOk};
ghost use Rattle.room_ids.specs.declared.ids.NodeId.TheVariants.{Root};
ghost use Rattle.room_nodes.specs.Preorder.{preorder, preorder_within};
ghost use Rattle.room_nodes.specs.Shape.{children};

use room_ids::NodeId;
use room_json::{NoMemory, Seq};
use room_tree::Tree;
use std::alloc::Global;

/// No node lies deeper than this below the root.
pub(crate) const MAX_NODE_DEPTH: u64 = 60;

/// The children of a node in byte order of their keys.
fn kids<T: Tree>(alloc: Global, t: &T, id: &NodeId) -> Result<Seq<NodeId>, NoMemory>
    ensures { IfOk result (λ s. s ≡ map (λ e. e.1) (children (T.nodes t.now) id.now)) }
{
    let mut found = Seq::new(alloc);
    let mut next = t.next_child(id, None);
    while let Some(child) = next {
        let Some(node) = t.node(&child) else {
            unreachable!();
        };
        next = t.next_child(id, Some(&node.key));
        found.push(child)?;
    }
    Ok(found)
}

#[cycle(push)]
#[tactic(auto, using(room_items::proofs::Levels::within_none, room_items::proofs::Levels::within_more))]
fn push_node<T: Tree>(
    alloc: Global,
    t: &T,
    id: &NodeId,
    levels: u64,
    ids: &mut Seq<NodeId>,
) -> Result<(), NoMemory>
    ensures { OnOk result (ids.new ≡ ids.old ++ preorder_within levels (T.nodes t.now) id.now) }
{
    ids.push(*id)?;
    if levels == 0 {
        return Ok(());
    }
    let below = kids(alloc, t, id)?;
    push_each(alloc, t, below.as_slice(), levels - 1, ids)
}

#[cycle(push)]
fn push_each<T: Tree>(
    alloc: Global,
    t: &T,
    below: &[NodeId],
    levels: u64,
    ids: &mut Seq<NodeId>,
) -> Result<(), NoMemory>
    ensures { OnOk result (ids.new ≡ ids.old ++ flat_map (preorder_within levels (T.nodes t.now)) below.now) }
{
    for kid in below {
        push_node(alloc, t, kid, levels, ids)?;
    }
    Ok(())
}

/// The ids of a tree, each before those below it, children in byte order of their keys.
#[tactic(auto, unfolding(room_nodes::specs::Preorder::preorder))]
pub(crate) fn order<T: Tree>(alloc: Global, t: &T) -> Result<Seq<NodeId>, NoMemory>
    ensures { IfOk result (λ s. s ≡ preorder (T.nodes t.now) Root) }
{
    let mut ids = Seq::new(alloc);
    push_node(alloc, t, &NodeId::Root, MAX_NODE_DEPTH, &mut ids)?;
    Ok(ids)
}
