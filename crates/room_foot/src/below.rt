//! What lies below a node.
ghost use Rattle.std.specs.Prelude.{◌≡◌, ◌≢◌, ◌&&◌, ◌++◌, ◌∷◌, [], OnOk, IfOk, Some, is_some, true};
ghost use Rattle.std.specs.FinMap.{get};
ghost use Rattle.room_ids.specs.declared.ids.NodeId.TheVariants.{Root as TheRoot};
ghost use Rattle.room_nodes.specs.Cells.{removal_cells};
ghost use Rattle.room_nodes.specs.Preorder.{preorder, preorder_within};
ghost use Rattle.room_nodes.specs.Shape.{is_below, up};
ghost use Rattle.room_foot.specs.Rising.{ids_cells};

use crate::rank::Rank;
use room_ids::{NodeId, same_id};
use room_json::{NoMemory, Text};
use room_nodes::Node;
use room_tree::Tree;
use std::alloc::Global;

/// Whether a node is there, at another node or below it.
pub(crate) fn is_hit<T: Tree>(t: &T, top: &NodeId, id: &NodeId) -> bool
    ensures { result ≡ (is_some (get (T.nodes t.now) id.now) && is_below (T.nodes t.now) top.now id.now) }
{
    let mut at = *id;
    while let Some(node) = t.node(&at) {
        if same_id(&at, top) {
            return true;
        }
        if same_id(&at, &NodeId::Root) {
            return false;
        }
        at = node.parent;
    }
    false
}

pub(crate) fn node_there<'a, T: Tree>(t: &'a T, id: &NodeId) -> &'a Node
    requires { is_some (get (T.nodes t.now) id.now) ≡ true }
    ensures { Some result.now ≡ get (T.nodes t.now) id.now }
{
    match t.node(id) {
        Some(node) => node,
        None => unreachable!(),
    }
}

pub(crate) fn parent_at<T: Tree>(t: &T, id: &NodeId) -> NodeId
    requires { is_some (get (T.nodes t.now) id.now) ≡ true }
    ensures { result ≡ up (T.nodes t.now) id.now }
{
    node_there(t, id).parent
}

fn push(ids: &mut Vec<Rank>, id: NodeId) -> Result<(), NoMemory>
    ensures { OnOk result (ids.new.items ≡ ids.old.items ++ id ∷ []) }
{
    ids.push(Rank::new(id))?;
    Ok(())
}

/// Puts an id behind others, and then those of all nodes that lie some levels below it.
fn push_below<T: Tree>(t: &T, id: &NodeId, levels: u64, ids: &mut Vec<Rank>) -> Result<(), NoMemory>
    ensures { OnOk result (ids.new.items ≡ ids.old.items ++ preorder_within levels (T.nodes t.now) id.now) }
{
    push(ids, *id)?;
    if levels == 0 {
        return Ok(());
    }
    let mut key: Option<&Text> = None;
    while let Some(child) = t.next_child(id, key) {
        let node = node_there(t, &child);
        push_below(t, &child, levels - 1, ids)?;
        key = Some(&node.key);
    }
    Ok(())
}

/// The ids of a node and of all nodes below it, rising.
pub(crate) fn rising_below<T: Tree>(
    alloc: Global,
    t: &T,
    top: &NodeId,
) -> Result<Vec<Rank>, NoMemory>
    requires there { is_some (get (T.nodes t.now) top.now) ≡ true }
    requires made { top.now ≢ TheRoot }
    ensures { IfOk result (λ v. ids_cells v.items ≡ removal_cells (T.nodes t.now) top.now) }
{
    let mut ids = Vec::new(alloc);
    push_below(t, top, 60, &mut ids)?;
    ids.sort_unstable();
    ids.dedup();
    Ok(ids)
}
