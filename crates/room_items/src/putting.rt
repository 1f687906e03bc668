//! Rows put into a tree, one after another.
ghost use Rattle.std.specs.Prelude.{◌≡◌, ◌+◌, ◌≤◌, ◌<◌, true, length, option_map};
ghost use Rattle.std.specs.FinMap.{get, insert};
ghost use Rattle.room_items.specs.Items.{row_node, may_put, put_rows};
ghost use Rattle.room_nodes.specs.Shape.{fits_under};
ghost use Rattle.room_nodes.specs.Steps.{depth_in};

use crate::order::MAX_NODE_DEPTH;
use crate::row::Row;
use room_ids::{NodeId, Pos};
use room_json::Seq;
use room_nodes::{Kind, Node};
use room_tree::Tree;

/// Whether the node of a row may stand under its parent.
#[tactic(auto, using(crate::proofs::MayPut::fits_is, crate::proofs::MayPut::lookup_find))]
fn fits<T: Tree>(t: &T, row: &Row) -> bool
    ensures { result ≡ fits_under (get (T.nodes t.now) row.now.parent) (row_node (T.nodes t.now) row.now) }
{
    let Some(parent) = t.node(&row.parent) else {
        return false;
    };
    parent.depth < MAX_NODE_DEPTH
        && match &parent.kind {
            Kind::Register(_) => false,
            Kind::Object(fields) => fields.find(&row.key).is_none(),
            Kind::List => Pos::is_pos(row.key.as_bytes()),
            Kind::Map => true,
        }
}

fn may_put<T: Tree>(t: &T, row: &Row) -> bool
    ensures { result ≡ may_put (T.nodes t.now) row.now }
{
    t.node(&row.id).is_none() && (fits(t, row) && t.child_at(&row.parent, &row.key).is_none())
}

fn depth_at<T: Tree>(t: &T, id: &NodeId) -> u64
    ensures { result ≡ depth_in (get (T.nodes t.now) id.now) }
{
    match t.node(id) {
        Some(node) => node.depth,
        None => 0,
    }
}

fn put_row<T: Tree>(t: &mut T, row: Row)
    requires may { may_put (T.nodes t.old) row ≡ true }
    requires capacity { 0 < T.spare t.old }
    ensures nodes { T.nodes t.new ≡ insert (T.nodes t.old) row.id (row_node (T.nodes t.old) row) }
    ensures less { T.spare t.new + 1 ≡ T.spare t.old }
{
    let depth = depth_at(t, &row.parent) + 1;
    let Row {
        id,
        parent,
        key,
        kind,
    } = row;
    let node = Node {
        parent,
        key,
        depth,
        kind,
    };
    t.put(id, node);
}

/// The tree with all rows put, None where one of them can't be put.
pub(crate) fn put_rows<T: Tree>(t: T, rows: Seq<Row>) -> Option<T>
    requires capacity { length rows ≤ T.spare t }
    ensures { option_map (λ u. T.nodes u) result ≡ put_rows (T.nodes t) rows }
{
    let mut t = t;
    for row in rows.into_vec() {
        if !may_put(&t, &row) {
            return None;
        }
        put_row(&mut t, row);
    }
    Some(t)
}
