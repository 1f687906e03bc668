//! Rows put into a tree, one after another.
ghost use Rattle.std.specs.Prelude.{◌≡◌, ◌+◌, ◌≤◌, ◌<◌, true, length, map, option_map};
ghost use Rattle.std.specs.FinMap.{get, insert};
ghost use Rattle.room_nodes.specs.Shape.{empty_tree, fits_under};
ghost use Rattle.room_nodes.specs.Steps.{depth_in};
ghost use Rattle.room_bytes.specs.Reading.{Gives};
ghost use Rattle.room_snapshot.specs.Bounds.{rowed};
ghost use Rattle.room_snapshot.specs.Reading.{may_hold, held, put_nodes, rooted};

use crate::order::MAX_NODE_DEPTH;
use crate::row::Row;
use room_bytes::Misread;
use room_ids::{NodeId, Pos};
use room_json::Seq;
use room_nodes::Kind;
use room_tree::Tree;

/// Whether the node of a row may stand under its parent.
#[tactic(auto, using(room_items::proofs::MayPut::fits_is, room_items::proofs::MayPut::lookup_find))]
fn fits<T: Tree>(t: &T, row: &Row) -> bool
    ensures { result ≡ fits_under (get (T.nodes t.now) row.now.node.parent) (held (T.nodes t.now) (rowed row.now)) }
{
    let Some(parent) = t.node(&row.node.parent) else {
        return false;
    };
    parent.depth < MAX_NODE_DEPTH
        && match &parent.kind {
            Kind::Register(_) => false,
            Kind::Object(fields) => fields.find(&row.node.key).is_none(),
            Kind::List => Pos::is_pos(row.node.key.as_bytes()),
            Kind::Map => true,
        }
}

fn may_put<T: Tree>(t: &T, row: &Row) -> bool
    ensures { result ≡ may_hold (T.nodes t.now) (rowed row.now) }
{
    t.node(&row.id).is_none()
        && (fits(t, row) && t.child_at(&row.node.parent, &row.node.key).is_none())
}

fn depth_at<T: Tree>(t: &T, id: &NodeId) -> u64
    ensures { result ≡ depth_in (get (T.nodes t.now) id.now) }
{
    match t.node(id) {
        Some(node) => node.depth,
        None => 0,
    }
}

fn put_row<T: Tree>(t: &mut T, row: Row)
    requires may { may_hold (T.nodes t.old) (rowed row) ≡ true }
    requires capacity { 0 < T.spare t.old }
    ensures nodes { T.nodes t.new ≡ insert (T.nodes t.old) row.id (held (T.nodes t.old) (rowed row)) }
    ensures less { T.spare t.new + 1 ≡ T.spare t.old }
{
    let depth = depth_at(t, &row.node.parent) + 1;
    let Row { id, node } = row;
    let mut node = node;
    node.depth = depth;
    t.put(id, node);
}

/// The tree with all rows put, None where one of them can't be put.
fn put_rows<T: Tree>(t: T, rows: Seq<Row>) -> Option<T>
    requires capacity { length rows ≤ T.spare t }
    ensures { option_map (λ u. T.nodes u) result ≡ put_nodes (T.nodes t) (map rowed rows) }
{
    let mut t = t;
    for row in rows.into_vec() {
        if !may_put(&t, &row) {
            return None;
        }
        put_row(&mut t, row);
    }
    Some(t)
}

/// The tree whose root is an object, with rows put under it.
pub(crate) fn rooted<T: Tree>(into: T, kind: Kind, rows: Seq<Row>) -> Result<T, Misread>
    requires { T.nodes into ≡ empty_tree }
    ensures { Gives (λ t. T.nodes t) result (rooted kind (map rowed rows)) }
{
    let Kind::Object(fields) = kind else {
        return Err(Misread::NoValue);
    };
    let mut into = into;
    into.reserve(rows.len())?;
    drop(into.swap_fields(&NodeId::Root, fields));
    match put_rows(into, rows) {
        Some(t) => Ok(t),
        None => Err(Misread::NoValue),
    }
}
