//! Whether an operation writes a cell.
ghost use Rattle.std.specs.Prelude.{◌≡◌, false, is_some, true};
ghost use Rattle.std.specs.FinMap.{get};
ghost use Rattle.room_nodes.specs.Cells.{overlaps, overlaps_some};
ghost use Rattle.room_nodes.specs.Cells.{effect_cells, removal_cells, replaced_cells, slot_cells, slots_cells};
ghost use Rattle.room_nodes.specs.Steps.{is_void};
ghost use Rattle.room_foot.specs.Spots.{cell_of, owner, place_cell, place_cells};

use crate::below::{is_hit, parent_at};
use crate::overlap::same_key;
use room_ids::{NodeId, same_id};
use room_json::{Members, Text};
use room_nodes::Body;
use room_tree::{Tree, is_child_of, is_list_at};

/// A cell that borrows its key.
#[derive(Drop)]
pub(crate) enum Spot<'a> {
    Node(NodeId),
    Slot(NodeId, &'a Text),
    All(NodeId),
}

fn owner(spot: &Spot<'_>) -> NodeId
    ensures { result ≡ owner (cell_of spot.now) }
{
    match spot {
        Spot::Node(id) => *id,
        Spot::Slot(id, _) => *id,
        Spot::All(id) => *id,
    }
}

fn overlap(spot: &Spot<'_>, other: &Spot<'_>) -> bool
    ensures { result ≡ overlaps (cell_of spot.now) (cell_of other.now) }
{
    match (spot, other) {
        (Spot::Node(x), Spot::Node(y)) => same_id(x, y),
        (Spot::Slot(x, j), Spot::Slot(y, k)) => same_id(x, y) && same_key(j, k),
        (Spot::Slot(x, _), Spot::All(y)) => same_id(x, y),
        (Spot::All(x), Spot::Slot(y, _)) => same_id(x, y),
        (Spot::All(x), Spot::All(y)) => same_id(x, y),
        _ => false,
    }
}

fn in_removal<T: Tree>(t: &T, top: &NodeId, spot: &Spot<'_>) -> bool
    ensures { result ≡ overlaps_some (cell_of spot.now) (removal_cells (T.nodes t.now) top.now) }
{
    is_hit(t, top, &owner(spot))
}

fn in_slot<T: Tree>(t: &T, id: &NodeId, key: &Text, spot: &Spot<'_>) -> bool
    ensures { result ≡ overlaps_some (cell_of spot.now) (slot_cells (T.nodes t.now) id.now key.now) }
{
    if overlap(spot, &Spot::Slot(*id, key)) {
        return true;
    }
    match t.child_at(id, key) {
        Some(child) => in_removal(t, &child, spot),
        None => false,
    }
}

#[tactic(auto, using(crate::proofs::Removals::covered_both))]
fn in_slots<T: Tree>(t: &T, id: &NodeId, fields: &Members, spot: &Spot<'_>) -> bool
    ensures { result ≡ overlaps_some (cell_of spot.now) (slots_cells (T.nodes t.now) id.now fields.now) }
{
    for (key, _) in fields.as_map().iter() {
        if in_slot(t, id, key, spot) {
            return true;
        }
    }
    false
}

fn in_replaced<T: Tree>(t: &T, list: &NodeId, replaces: &Option<NodeId>, spot: &Spot<'_>) -> bool
    ensures { result ≡ overlaps_some (cell_of spot.now) (replaced_cells (T.nodes t.now) list.now replaces.now) }
{
    match replaces {
        Some(x) => is_child_of(t, list, x) && in_removal(t, x, spot),
        None => false,
    }
}

/// Where a create puts its node.
fn in_place<T: Tree>(
    t: &T,
    parent: &NodeId,
    key: &Text,
    replaces: &Option<NodeId>,
    spot: &Spot<'_>,
) -> bool
    ensures { result ≡ overlaps_some (cell_of spot.now) (place_cells (T.nodes t.now) parent.now key.now replaces.now) }
{
    if is_list_at(t, parent) {
        overlap(spot, &Spot::All(*parent)) || in_replaced(t, parent, replaces, spot)
    } else {
        in_slot(t, parent, key, spot)
    }
}

/// Where a node stands: all of its list, or its slot.
pub(crate) fn place_of<'a, T: Tree>(t: &'a T, id: &NodeId) -> Spot<'a>
    requires { is_some (get (T.nodes t.now) id.now) ≡ true }
    ensures { cell_of result ≡ place_cell (T.nodes t.now) id.now }
{
    match t.node(id) {
        Some(node) => {
            if is_list_at(t, &node.parent) {
                Spot::All(node.parent)
            } else {
                Spot::Slot(node.parent, &node.key)
            }
        },
        None => unreachable!(),
    }
}

/// Of an operation that isn't void, whether it writes a cell.
pub(crate) fn in_effect<T: Tree>(t: &T, body: &Body, spot: &Spot<'_>) -> bool
    requires { is_void (T.nodes t.now) body.now ≡ false }
    ensures { result ≡ overlaps_some (cell_of spot.now) (effect_cells (T.nodes t.now) body.now) }
{
    match body {
        Body::SetKey { node, key: _ } => {
            let up = parent_at(t, node);
            overlap(spot, &Spot::All(up)) || overlap(spot, &Spot::Node(*node))
        },
        Body::Create {
            node,
            parent,
            key,
            replaces,
            kind: _,
        } => {
            overlap(spot, &Spot::Node(*node))
                || overlap(spot, &Spot::All(*node))
                || in_place(t, parent, key, replaces, spot)
        },
        Body::Update { node, fields } => in_slots(t, node, fields, spot),
        Body::Delete { node } => { overlap(spot, &place_of(t, node)) || in_removal(t, node, spot) },
        Body::DeleteKey { node, key } => in_slot(t, node, key, spot),
    }
}
