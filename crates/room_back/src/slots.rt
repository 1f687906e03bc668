//! What stands at a key of an object or a map, restored.
ghost use Rattle.std.specs.Prelude.{◌≡◌, ◌++◌, ◌∷◌, [], OnOk, IfOk, Some, option_map};
ghost use Rattle.std.specs.Option.{option_copied};
ghost use Rattle.std.specs.FinMap.{get};
ghost use Rattle.room_json.specs.View.{json_of};
ghost use Rattle.room_nodes.specs.declared.nodes.Body.TheVariants.{Update as AnUpdate};
ghost use Rattle.room_nodes.specs.Reversal.{field_of_node, replaced_restored, displaced, slot_restored};
ghost use Rattle.room_back.specs.Back.{as_changes};

use crate::restoring::{push, restore, restore_child};
use room_ids::NodeId;
use room_json::{Copied, Json, Members, NoMemory, Text};
use room_nodes::{Body, Changes, Kind};
use room_tree::{Tree, is_child_of, is_list_at};
use std::alloc::Global;

/// A field of an object.
#[tactic(auto, using(crate::proofs::Olds::lookup_find))]
pub(crate) fn field_at<'a, T: Tree>(t: &'a T, id: &NodeId, key: &Text) -> Option<&'a Json>
    ensures { option_map json_of (option_copied result) ≡ field_of_node key.now (get (T.nodes t.now) id.now) }
{
    match t.node(id) {
        Some(node) => match &node.kind {
            Kind::Object(fields) => fields.find(key),
            _ => None,
        },
        None => None,
    }
}

/// One member.
fn member(alloc: Global, name: &Text, value: &Json) -> Result<Members, NoMemory>
    ensures { IfOk result (λ m. m ≡ (name.now, json_of value.now) ∷ []) }
{
    let mut members = Members::new(alloc);
    drop(members.set(name.copy(alloc)?, value.copy(alloc)?)?);
    Ok(members)
}

/// Sets a field again.
fn set_again(
    alloc: Global,
    id: &NodeId,
    key: &Text,
    value: &Json,
    back: &mut Changes,
) -> Result<(), NoMemory>
    ensures { OnOk result (back.new
        ≡ back.old ++ as_changes (AnUpdate id.now ((key.now, json_of value.now) ∷ []) ∷ [])) }
{
    let fields = member(alloc, key, value)?;
    push(back, Body::Update { node: *id, fields })
}

/// Restores the field or the child at a key.
pub(crate) fn restore_slot<T: Tree>(
    alloc: Global,
    t: &T,
    id: &NodeId,
    key: &Text,
    back: &mut Changes,
) -> Result<(), NoMemory>
    ensures { OnOk result (back.new ≡ back.old ++ as_changes (slot_restored (T.nodes t.now) id.now key.now)) }
{
    match field_at(t, id, key) {
        Some(value) => set_again(alloc, id, key, value, back),
        None => restore_child(alloc, t, t.child_at(id, key), back),
    }
}

/// Restores the child of a list that a create replaces.
fn restore_replaced<T: Tree>(
    alloc: Global,
    t: &T,
    list: &NodeId,
    replaces: &Option<NodeId>,
    back: &mut Changes,
) -> Result<(), NoMemory>
    ensures { OnOk result (back.new
        ≡ back.old ++ as_changes (replaced_restored (T.nodes t.now) list.now replaces.now)) }
{
    match replaces {
        Some(id) => {
            if is_child_of(t, list, id) {
                restore(alloc, t, id, back)
            } else {
                Ok(())
            }
        },
        None => Ok(()),
    }
}

/// Restores what a create takes out at its place.
pub(crate) fn restore_displaced<T: Tree>(
    alloc: Global,
    t: &T,
    parent: &NodeId,
    key: &Text,
    replaces: &Option<NodeId>,
    back: &mut Changes,
) -> Result<(), NoMemory>
    ensures { OnOk result (back.new
        ≡ back.old ++ as_changes (displaced (T.nodes t.now) parent.now key.now replaces.now)) }
{
    if is_list_at(t, parent) {
        restore_replaced(alloc, t, parent, replaces, back)
    } else {
        restore_slot(alloc, t, parent, key, back)
    }
}
