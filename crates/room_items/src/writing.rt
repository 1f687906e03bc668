//! A tree as the items of a state.
ghost use Rattle.std.specs.Prelude.{◌≡◌, map, IfOk, Some};
ghost use Rattle.room_items.specs.Items.{item_out, items_of, tree_in};

use crate::order::order;
use crate::shape::write_item;
use room_ids::NodeId;
use room_json::{Items, NoMemory};
use room_tree::Tree;
use std::alloc::Global;

fn items_at<T: Tree>(alloc: Global, t: &T, ids: &[NodeId]) -> Result<Items, NoMemory>
    ensures { IfOk result (λ v. v ≡ map (item_out (T.nodes t.now)) ids.now) }
{
    let mut items = Items::new(alloc);
    for id in ids {
        items.push(write_item(alloc, id, t.node(id))?)?;
    }
    Ok(items)
}

/// The items of a tree, in preorder from the root, children in byte order of their keys. They are read again as that
/// tree.
///
/// The calls made of the tree grow with the number of its nodes. Fails only where memory runs out.
pub fn write_items<T: Tree>(alloc: Global, t: &T) -> Result<Items, NoMemory>
    ensures value { IfOk result (λ v. v ≡ items_of (T.nodes t.now)) }
    ensures again { IfOk result (λ v. tree_in v ≡ Some (T.nodes t.now)) }
{
    let ids = order(alloc, t)?;
    let items = items_at(alloc, t, ids.as_slice())?;
    Ok(items)
}
