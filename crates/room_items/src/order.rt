//! The nodes of a tree in preorder.
ghost use Rattle.std.specs.Prelude.{◌≡◌, ◌++◌, flat_map, IfOk, OnOk};
ghost use Rattle.room_ids.specs.declared.ids.NodeId.TheVariants.{Root};
ghost use Rattle.room_items.specs.Items.{same_ids};
ghost use Rattle.room_nodes.specs.Preorder.{preorder, preorder_within};

use crate::kids::kids;
use room_ids::{NodeId, same_id};
use room_json::{NoMemory, Seq, Text};
use room_tree::Tree;
use std::alloc::Global;

/// No node lies deeper than this below the root.
pub(crate) const MAX_NODE_DEPTH: u64 = 60;

#[cycle(push)]
#[tactic(auto, using(crate::proofs::Levels::within_none, crate::proofs::Levels::within_more))]
fn push_node<T: Tree>(
    alloc: Global,
    t: &T,
    id: &NodeId,
    levels: u64,
    ids: &mut Seq<NodeId>,
) -> Result<(), NoMemory>
    ensures { OnOk result (ids.new ≡ ids.old ++ preorder_within levels (T.nodes t.now) id.now) }
{
    ids.push(*id)?;
    if levels == 0 {
        return Ok(());
    }
    let below = kids(alloc, t, id)?;
    push_each(alloc, t, below.as_slice(), levels - 1, ids)
}

#[cycle(push)]
fn push_each<T: Tree>(
    alloc: Global,
    t: &T,
    below: &[(Text, NodeId)],
    levels: u64,
    ids: &mut Seq<NodeId>,
) -> Result<(), NoMemory>
    ensures { OnOk result (ids.new ≡ ids.old ++ flat_map (λ e. preorder_within levels (T.nodes t.now) e.1) below.now) }
{
    for kid in below {
        push_node(alloc, t, &kid.1, levels, ids)?;
    }
    Ok(())
}

/// The ids of a tree, each before those below it, children in byte order of their keys.
#[tactic(auto, unfolding(room_nodes::specs::Preorder::preorder))]
pub(crate) fn order<T: Tree>(alloc: Global, t: &T) -> Result<Seq<NodeId>, NoMemory>
    ensures { IfOk result (λ s. s ≡ preorder (T.nodes t.now) Root) }
{
    let mut ids = Seq::new(alloc);
    push_node(alloc, t, &NodeId::Root, MAX_NODE_DEPTH, &mut ids)?;
    Ok(ids)
}

/// Whether two lists of ids are the same.
pub(crate) fn same_list(a: &[NodeId], b: &[NodeId]) -> bool
    ensures { result ≡ same_ids a.now b.now }
{
    let mut rest = b;
    for x in a {
        let [y, behind @ ..] = rest else {
            return false;
        };
        if !same_id(x, y) {
            return false;
        }
        rest = behind;
    }
    rest.is_empty()
}
