//! A node that goes with all that lies below it.
ghost use Rattle.std.specs.Prelude.{◌≡◌, ◌≢◌, OnOk, is_some, true};
ghost use Rattle.std.specs.FinMap.{get};
ghost use Rattle.room_nodes.specs.Shape.{removed, up};
ghost use Rattle.room_apply.specs.Edits.{KeepsUndo};
ghost use Rattle.room_apply.specs.Within.{ArePuts};
ghost use Rattle.room_ids.specs.declared.ids.NodeId.TheVariants.{Root as TheRoot};

use crate::turning::cut_leaf;
use room_ids::{NodeId, same_id};
use room_json::NoMemory;
use room_nodes::Turn;
use room_tree::Tree;

fn parent_at<T: Tree>(t: &T, id: &NodeId) -> NodeId
    requires { is_some (get (T.nodes t.now) id.now) ≡ true }
    ensures { result ≡ up (T.nodes t.now) id.now }
{
    match t.node(id) {
        Some(node) => node.parent,
        None => unreachable!(),
    }
}

/// Takes a node out with all that lies below it.
pub(crate) fn cut<T: Tree>(t: &mut T, x: &NodeId, done: &mut Vec<Turn>) -> Result<(), NoMemory>
    requires there { is_some (get (T.nodes t.old) x.now) ≡ true }
    requires made { x.now ≢ TheRoot }
    ensures ok { OnOk result (T.nodes t.new ≡ removed (T.nodes t.old) x.now) }
    ensures puts { ArePuts done.old.items → ArePuts done.new.items }
    ensures undo { KeepsUndo (T.nodes t.old) (T.spare t.old) done.old.items (T.nodes t.new)
        (T.spare t.new) done.new.items }
{
    let mut at = *x;
    loop {
        match t.next_child(&at, None) {
            Some(child) => at = child,
            None => {
                let parent = parent_at(t, &at);
                cut_leaf(t, at, done)?;
                if same_id(&at, x) {
                    return Ok(());
                }
                at = parent;
            }
        }
    }
}
