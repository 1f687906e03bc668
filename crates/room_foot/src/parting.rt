//! Whether two operations are apart.
ghost use Rattle.std.specs.Prelude.{◌≡◌, ◌∷◌, [], false};
ghost use Rattle.room_nodes.specs.Cells.{is_apart, node_cells, reads};
ghost use Rattle.room_nodes.specs.Steps.{is_void as is_void_of};
ghost use Rattle.room_foot.specs.Meeting.{is_met, is_clear as is_clear_of};
ghost use Rattle.room_foot.specs.Meeting.{place_heads, reads_of_create, reads_of_delete, reads_of_set_key};
ghost use Rattle.room_foot.specs.Parts.{effect_parts, heads, replaced_parts, slot_parts, slots_parts};

use crate::below::parent_at;
use crate::covers::{Spot, in_effect, place_of};
use crate::voids::is_void;
use room_ids::NodeId;
use room_json::{Members, Text};
use room_nodes::{Body, Op};
use room_tree::{Tree, is_child_of, is_list_at};

// What one operation reads, and what leads what it writes, against what another writes that isn't void.

fn key_reads_meet<T: Tree>(t: &T, node: &NodeId, into: &Body) -> bool
    requires { is_void_of (T.nodes t.now) into.now ≡ false }
    ensures { result ≡ is_met (T.nodes t.now) into.now (reads_of_set_key (T.nodes t.now) node.now) }
{
    match t.node(node) {
        Some(n) => {
            in_effect(t, into, &Spot::Node(*node))
                || in_effect(t, into, &Spot::Node(n.parent))
                || (is_list_at(t, &n.parent) && in_effect(t, into, &Spot::All(n.parent)))
        },
        None => in_effect(t, into, &Spot::Node(*node)),
    }
}

fn delete_reads_meet<T: Tree>(t: &T, node: &NodeId, into: &Body) -> bool
    requires { is_void_of (T.nodes t.now) into.now ≡ false }
    ensures { result ≡ is_met (T.nodes t.now) into.now (reads_of_delete (T.nodes t.now) node.now) }
{
    match t.node(node) {
        Some(n) => {
            in_effect(t, into, &Spot::Node(*node)) || in_effect(t, into, &Spot::Node(n.parent))
        },
        None => in_effect(t, into, &Spot::Node(*node)),
    }
}

fn id_meets<T: Tree>(t: &T, id: &Option<NodeId>, into: &Body) -> bool
    requires { is_void_of (T.nodes t.now) into.now ≡ false }
    ensures { result ≡ is_met (T.nodes t.now) into.now (node_cells id.now) }
{
    match id {
        Some(x) => in_effect(t, into, &Spot::Node(*x)),
        None => false,
    }
}

fn create_reads_meet<T: Tree>(
    t: &T,
    node: &NodeId,
    parent: &NodeId,
    replaces: &Option<NodeId>,
    into: &Body,
) -> bool
    requires { is_void_of (T.nodes t.now) into.now ≡ false }
    ensures { let u = T.nodes t.now in result ≡ is_met u into.now (reads_of_create u node.now parent.now replaces.now) }
{
    if is_list_at(t, parent) {
        in_effect(t, into, &Spot::Node(*node))
            || in_effect(t, into, &Spot::Node(*parent))
            || in_effect(t, into, &Spot::All(*parent))
            || id_meets(t, replaces, into)
    } else {
        in_effect(t, into, &Spot::Node(*node)) || in_effect(t, into, &Spot::Node(*parent))
    }
}

fn reads_meet<T: Tree>(t: &T, from: &Body, into: &Body) -> bool
    requires { is_void_of (T.nodes t.now) into.now ≡ false }
    ensures { result ≡ is_met (T.nodes t.now) into.now (reads (T.nodes t.now) from.now) }
{
    match from {
        Body::SetKey { node, key: _ } => key_reads_meet(t, node, into),
        Body::Create {
            node,
            parent,
            key: _,
            replaces,
            kind: _,
        } => create_reads_meet(t, node, parent, replaces, into),
        Body::Update { node, fields: _ } => in_effect(t, into, &Spot::Node(*node)),
        Body::Delete { node } => delete_reads_meet(t, node, into),
        Body::DeleteKey { node, key: _ } => in_effect(t, into, &Spot::Node(*node)),
    }
}

fn slot_meets<T: Tree>(t: &T, id: &NodeId, key: &Text, into: &Body) -> bool
    requires { is_void_of (T.nodes t.now) into.now ≡ false }
    ensures { result ≡ is_met (T.nodes t.now) into.now (heads (slot_parts (T.nodes t.now) id.now key.now)) }
{
    if in_effect(t, into, &Spot::Slot(*id, key)) {
        return true;
    }
    match t.child_at(id, key) {
        Some(child) => in_effect(t, into, &Spot::Node(child)),
        None => false,
    }
}

#[tactic(auto, using(crate::proofs::Heads::slots_meet_more))]
fn slots_meet<T: Tree>(t: &T, id: &NodeId, fields: &Members, into: &Body) -> bool
    requires { is_void_of (T.nodes t.now) into.now ≡ false }
    ensures { result ≡ is_met (T.nodes t.now) into.now (heads (slots_parts (T.nodes t.now) id.now fields.now)) }
{
    for (key, _) in fields.as_map().iter() {
        if slot_meets(t, id, key, into) {
            return true;
        }
    }
    false
}

fn replaced_meets<T: Tree>(t: &T, list: &NodeId, replaces: &Option<NodeId>, into: &Body) -> bool
    requires { is_void_of (T.nodes t.now) into.now ≡ false }
    ensures { result ≡ is_met (T.nodes t.now) into.now (heads (replaced_parts (T.nodes t.now) list.now replaces.now)) }
{
    match replaces {
        Some(x) => is_child_of(t, list, x) && in_effect(t, into, &Spot::Node(*x)),
        None => false,
    }
}

fn place_meets<T: Tree>(
    t: &T,
    parent: &NodeId,
    key: &Text,
    replaces: &Option<NodeId>,
    into: &Body,
) -> bool
    requires { is_void_of (T.nodes t.now) into.now ≡ false }
    ensures { result ≡ is_met (T.nodes t.now) into.now (place_heads (T.nodes t.now) parent.now key.now replaces.now) }
{
    if is_list_at(t, parent) {
        in_effect(t, into, &Spot::All(*parent)) || replaced_meets(t, parent, replaces, into)
    } else {
        slot_meets(t, parent, key, into)
    }
}

fn heads_meet<T: Tree>(t: &T, from: &Body, into: &Body) -> bool
    requires from { is_void_of (T.nodes t.now) from.now ≡ false }
    requires into { is_void_of (T.nodes t.now) into.now ≡ false }
    ensures { result ≡ is_met (T.nodes t.now) into.now (heads (effect_parts (T.nodes t.now) from.now)) }
{
    match from {
        Body::SetKey { node, key: _ } => {
            let up = parent_at(t, node);
            in_effect(t, into, &Spot::All(up)) || in_effect(t, into, &Spot::Node(*node))
        },
        Body::Create {
            node,
            parent,
            key,
            replaces,
            kind: _,
        } => {
            in_effect(t, into, &Spot::Node(*node))
                || in_effect(t, into, &Spot::All(*node))
                || place_meets(t, parent, key, replaces, into)
        },
        Body::Update { node, fields } => slots_meet(t, node, fields, into),
        Body::Delete { node } => {
            in_effect(t, into, &place_of(t, node)) || in_effect(t, into, &Spot::Node(*node))
        },
        Body::DeleteKey { node, key } => slot_meets(t, node, key, into),
    }
}

/// Whether nothing that one operation reads, and nothing that leads what it writes, is written by another.
#[tactic(auto, using(crate::proofs::Heads::void_writes, crate::proofs::Heads::clear_of_none))]
fn is_clear<T: Tree>(t: &T, from: &Body, into: &Body) -> bool
    ensures { result ≡ is_clear_of (T.nodes t.now) from.now into.now }
{
    if is_void(t, into) {
        return true;
    }
    if reads_meet(t, from, into) {
        return false;
    }
    is_void(t, from) || !heads_meet(t, from, into)
}

/// Whether neither of two operations writes a cell that the other reads or writes. It takes no memory.
pub fn apart<T: Tree>(t: &T, a: &Op, b: &Op) -> bool
    ensures { result ≡ is_apart (T.nodes t.now) (a.now.body ∷ []) (b.now.body ∷ []) }
{
    is_clear(t, &a.body, &b.body) && is_clear(t, &b.body, &a.body)
}
