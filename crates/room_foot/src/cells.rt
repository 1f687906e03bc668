//! The cells of an operation, as lists.
ghost use Rattle.std.specs.Prelude.{◌≡◌, ◌≢◌, ◌++◌, ◌∷◌, [], IfOk, OnOk, false, is_some, true};
ghost use Rattle.std.specs.FinMap.{get};
ghost use Rattle.room_ids.specs.declared.ids.NodeId.TheVariants.{Root as TheRoot};
ghost use Rattle.room_nodes.specs.Cells.{node_cells, reads, writes};
ghost use Rattle.room_nodes.specs.Cells.{effect_cells, removal_cells, removal_of};
ghost use Rattle.room_nodes.specs.Cells.{replaced_cells, slot_cells, slots_cells};
ghost use Rattle.room_nodes.specs.Shape.{child_at};
ghost use Rattle.room_nodes.specs.Steps.{is_void as is_void_of};
ghost use Rattle.room_foot.specs.Meeting.{reads_of_create, reads_of_delete, reads_of_set_key};
ghost use Rattle.room_foot.specs.Rising.{ids_cells};
ghost use Rattle.room_foot.specs.Spots.{place_cell, place_cells};

use crate::below::{parent_at, rising_below};
use crate::rank::Rank;
use crate::voids::is_void;
use room_ids::NodeId;
use room_json::{Copied, Members, NoMemory, Text};
use room_nodes::{Body, Cell, Cells, Op};
use room_tree::{Tree, is_child_of, is_list_at};
use std::alloc::Global;

fn push_ids(cells: &mut Cells, ids: &[Rank]) -> Result<(), NoMemory>
    ensures { OnOk result (cells.new ≡ cells.old ++ ids_cells ids.now) }
{
    for id in ids {
        cells.push(Cell::Node(id.id()))?;
        cells.push(Cell::All(id.id()))?;
    }
    Ok(())
}

fn push_removal<T: Tree>(
    alloc: Global,
    t: &T,
    top: &NodeId,
    cells: &mut Cells,
) -> Result<(), NoMemory>
    requires there { is_some (get (T.nodes t.now) top.now) ≡ true }
    requires made { top.now ≢ TheRoot }
    ensures { OnOk result (cells.new ≡ cells.old ++ removal_cells (T.nodes t.now) top.now) }
{
    let ids = rising_below(alloc, t, top)?;
    push_ids(cells, ids.as_slice())
}

fn push_child<T: Tree>(
    alloc: Global,
    t: &T,
    id: &NodeId,
    key: &Text,
    cells: &mut Cells,
) -> Result<(), NoMemory>
    ensures { let u = T.nodes t.now in OnOk result (cells.new ≡ cells.old ++ removal_of u (child_at u id.now key.now)) }
{
    match t.child_at(id, key) {
        Some(child) => push_removal(alloc, t, &child, cells),
        None => Ok(()),
    }
}

fn push_slot<T: Tree>(
    alloc: Global,
    t: &T,
    id: &NodeId,
    key: &Text,
    cells: &mut Cells,
) -> Result<(), NoMemory>
    ensures { OnOk result (cells.new ≡ cells.old ++ slot_cells (T.nodes t.now) id.now key.now) }
{
    cells.push(Cell::Slot(*id, key.copy(alloc)?))?;
    push_child(alloc, t, id, key, cells)
}

fn push_slots<T: Tree>(
    alloc: Global,
    t: &T,
    id: &NodeId,
    fields: &Members,
    cells: &mut Cells,
) -> Result<(), NoMemory>
    ensures { OnOk result (cells.new ≡ cells.old ++ slots_cells (T.nodes t.now) id.now fields.now) }
{
    for (key, _) in fields.as_map().iter() {
        push_slot(alloc, t, id, key, cells)?;
    }
    Ok(())
}

fn push_replaced<T: Tree>(
    alloc: Global,
    t: &T,
    list: &NodeId,
    replaces: &Option<NodeId>,
    cells: &mut Cells,
) -> Result<(), NoMemory>
    ensures { OnOk result (cells.new ≡ cells.old ++ replaced_cells (T.nodes t.now) list.now replaces.now) }
{
    match replaces {
        Some(x) => {
            if is_child_of(t, list, x) {
                push_removal(alloc, t, x, cells)
            } else {
                Ok(())
            }
        },
        None => Ok(()),
    }
}

/// What a create writes where it puts its node.
fn push_place<T: Tree>(
    alloc: Global,
    t: &T,
    parent: &NodeId,
    key: &Text,
    replaces: &Option<NodeId>,
    cells: &mut Cells,
) -> Result<(), NoMemory>
    ensures { OnOk result (cells.new ≡ cells.old ++ place_cells (T.nodes t.now) parent.now key.now replaces.now) }
{
    if is_list_at(t, parent) {
        cells.push(Cell::All(*parent))?;
        push_replaced(alloc, t, parent, replaces, cells)
    } else {
        push_slot(alloc, t, parent, key, cells)
    }
}

fn place_at<T: Tree>(alloc: Global, t: &T, id: &NodeId) -> Result<Cell, NoMemory>
    requires { is_some (get (T.nodes t.now) id.now) ≡ true }
    ensures { IfOk result (λ c. c ≡ place_cell (T.nodes t.now) id.now) }
{
    match t.node(id) {
        Some(node) => {
            if is_list_at(t, &node.parent) {
                Ok(Cell::All(node.parent))
            } else {
                Ok(Cell::Slot(node.parent, node.key.copy(alloc)?))
            }
        },
        None => unreachable!(),
    }
}

fn push_effect<T: Tree>(
    alloc: Global,
    t: &T,
    body: &Body,
    cells: &mut Cells,
) -> Result<(), NoMemory>
    requires { is_void_of (T.nodes t.now) body.now ≡ false }
    ensures { OnOk result (cells.new ≡ cells.old ++ effect_cells (T.nodes t.now) body.now) }
{
    match body {
        Body::SetKey { node, key: _ } => {
            cells.push(Cell::All(parent_at(t, node)))?;
            cells.push(Cell::Node(*node))?;
            Ok(())
        },
        Body::Create {
            node,
            parent,
            key,
            replaces,
            kind: _,
        } => {
            cells.push(Cell::Node(*node))?;
            cells.push(Cell::All(*node))?;
            push_place(alloc, t, parent, key, replaces, cells)
        },
        Body::Update { node, fields } => push_slots(alloc, t, node, fields, cells),
        Body::Delete { node } => {
            cells.push(place_at(alloc, t, node)?)?;
            push_removal(alloc, t, node, cells)
        },
        Body::DeleteKey { node, key } => push_slot(alloc, t, node, key, cells),
    }
}

/// The cells that an operation writes on a tree, in the order of their definition: none where it is void.
pub fn writes<T: Tree>(alloc: Global, t: &T, op: &Op) -> Result<Cells, NoMemory>
    ensures { IfOk result (λ s. s ≡ writes (T.nodes t.now) op.now.body) }
{
    let mut cells = Cells::new(alloc);
    if is_void(t, &op.body) {
        return Ok(cells);
    }
    push_effect(alloc, t, &op.body, &mut cells)?;
    Ok(cells)
}

fn push_id(cells: &mut Cells, id: &Option<NodeId>) -> Result<(), NoMemory>
    ensures { OnOk result (cells.new ≡ cells.old ++ node_cells id.now) }
{
    match id {
        Some(x) => {
            cells.push(Cell::Node(*x))?;
            Ok(())
        },
        None => Ok(()),
    }
}

fn push_create_reads<T: Tree>(
    t: &T,
    node: &NodeId,
    parent: &NodeId,
    replaces: &Option<NodeId>,
    cells: &mut Cells,
) -> Result<(), NoMemory>
    ensures { OnOk result (cells.new ≡ cells.old ++ reads_of_create (T.nodes t.now) node.now parent.now replaces.now) }
{
    cells.push(Cell::Node(*node))?;
    cells.push(Cell::Node(*parent))?;
    if is_list_at(t, parent) {
        cells.push(Cell::All(*parent))?;
        push_id(cells, replaces)
    } else {
        Ok(())
    }
}

fn push_delete_reads<T: Tree>(t: &T, node: &NodeId, cells: &mut Cells) -> Result<(), NoMemory>
    ensures { OnOk result (cells.new ≡ cells.old ++ reads_of_delete (T.nodes t.now) node.now) }
{
    cells.push(Cell::Node(*node))?;
    match t.node(node) {
        Some(n) => {
            cells.push(Cell::Node(n.parent))?;
            Ok(())
        },
        None => Ok(()),
    }
}

fn push_key_reads<T: Tree>(t: &T, node: &NodeId, cells: &mut Cells) -> Result<(), NoMemory>
    ensures { OnOk result (cells.new ≡ cells.old ++ reads_of_set_key (T.nodes t.now) node.now) }
{
    cells.push(Cell::Node(*node))?;
    match t.node(node) {
        Some(n) => {
            cells.push(Cell::Node(n.parent))?;
            if is_list_at(t, &n.parent) {
                cells.push(Cell::All(n.parent))?;
            }
            Ok(())
        },
        None => Ok(()),
    }
}

fn push_reads<T: Tree>(t: &T, body: &Body, cells: &mut Cells) -> Result<(), NoMemory>
    ensures { OnOk result (cells.new ≡ cells.old ++ reads (T.nodes t.now) body.now) }
{
    match body {
        Body::SetKey { node, key: _ } => push_key_reads(t, node, cells),
        Body::Create {
            node,
            parent,
            key: _,
            replaces,
            kind: _,
        } => push_create_reads(t, node, parent, replaces, cells),
        Body::Update { node, fields: _ } => {
            cells.push(Cell::Node(*node))?;
            Ok(())
        },
        Body::Delete { node } => push_delete_reads(t, node, cells),
        Body::DeleteKey { node, key: _ } => {
            cells.push(Cell::Node(*node))?;
            Ok(())
        },
    }
}

/// The cells that an operation reads on a tree, in the order of their definition, whether it is void or not.
pub fn reads<T: Tree>(alloc: Global, t: &T, op: &Op) -> Result<Cells, NoMemory>
    ensures { IfOk result (λ s. s ≡ reads (T.nodes t.now) op.now.body) }
{
    let mut cells = Cells::new(alloc);
    push_reads(t, &op.body, &mut cells)?;
    Ok(cells)
}
