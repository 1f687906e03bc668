//! What takes an update back.
ghost use Rattle.std.specs.Prelude.{◌≡◌, ◌++◌, OnOk, IfOk, option_map};
ghost use Rattle.std.specs.Option.{option_copied};
ghost use Rattle.std.specs.FinMap.{get};
ghost use Rattle.room_json.specs.Value.{merged};
ghost use Rattle.room_json.specs.View.{json_of, members_view};
ghost use Rattle.room_nodes.specs.declared.nodes.Body.TheVariants.{Update as AnUpdate};
ghost use Rattle.room_nodes.specs.Reversal.{child_restored, field_of_node, gone_or, old_field, old_fields};
ghost use Rattle.room_nodes.specs.Reversal.{old_update, other_name, other_names, reversed};
ghost use Rattle.room_back.specs.Back.{as_changes};

use crate::restoring::{push, restore_child};
use crate::slots::field_at;
use room_ids::NodeId;
use room_json::{Copied, Json, Members, NoMemory, Text};
use room_nodes::{Body, Changes};
use room_tree::Tree;
use std::alloc::Global;
use std::collections::BTreeMap;

/// Notes the value of a name, where it has one.
fn note_field(
    alloc: Global,
    old: &mut Members,
    name: &Text,
    value: Option<&Json>,
) -> Result<(), NoMemory>
    ensures { OnOk result (old.new
        ≡ merged old.old (old_field name.now (option_map json_of (option_copied value.entry)))) }
{
    if let Some(value) = value {
        drop(old.set(name.copy(alloc)?, value.copy(alloc)?)?);
    }
    Ok(())
}

/// The values that some names have as fields.
fn fields_at<T: Tree>(
    alloc: Global,
    t: &T,
    id: &NodeId,
    names: &BTreeMap<Text, Json>,
) -> Result<Members, NoMemory>
    ensures { IfOk result (λ m. m ≡ old_fields (get (T.nodes t.now) id.now) (members_view names.now.entries)) }
{
    let mut old = Members::new(alloc);
    for (name, _) in names.iter() {
        note_field(alloc, &mut old, name, field_at(t, id, name))?;
    }
    Ok(old)
}

/// Sets fields, where there are any.
fn set_some(id: &NodeId, fields: Members, back: &mut Changes) -> Result<(), NoMemory>
    ensures { OnOk result (back.new ≡ back.old ++ as_changes (old_update id.now fields)) }
{
    if fields.len() == 0 {
        return Ok(());
    }
    push(back, Body::Update { node: *id, fields })
}

/// Restores the child at a name, or removes the name where there was nothing.
fn restore_or_clear<T: Tree>(
    alloc: Global,
    t: &T,
    id: &NodeId,
    name: &Text,
    child: Option<NodeId>,
    back: &mut Changes,
) -> Result<(), NoMemory>
    ensures { OnOk result (back.new
        ≡ back.old ++ as_changes (gone_or id.now name.now child (child_restored (T.nodes t.now) child))) }
{
    match child {
        Some(_) => restore_child(alloc, t, child, back),
        None => push(
            back,
            Body::DeleteKey {
                node: *id,
                key: name.copy(alloc)?,
            },
        ),
    }
}

/// Takes a name back that was no field.
fn restore_name<T: Tree>(
    alloc: Global,
    t: &T,
    id: &NodeId,
    name: &Text,
    back: &mut Changes,
) -> Result<(), NoMemory>
    ensures { OnOk result (back.new ≡ back.old ++ as_changes (other_name (T.nodes t.now) id.now name.now
        (field_of_node name.now (get (T.nodes t.now) id.now)))) }
{
    match field_at(t, id, name) {
        Some(_) => Ok(()),
        None => restore_or_clear(alloc, t, id, name, t.child_at(id, name), back),
    }
}

fn restore_names<T: Tree>(
    alloc: Global,
    t: &T,
    id: &NodeId,
    names: &BTreeMap<Text, Json>,
    back: &mut Changes,
) -> Result<(), NoMemory>
    ensures { OnOk result (back.new
        ≡ back.old ++ as_changes (other_names (T.nodes t.now) id.now (members_view names.now.entries))) }
{
    for (name, _) in names.iter() {
        restore_name(alloc, t, id, name, back)?;
    }
    Ok(())
}

/// Takes an update back: by the old values of the names that were fields, and then name by name.
pub(crate) fn restore_update<T: Tree>(
    alloc: Global,
    t: &T,
    id: &NodeId,
    fields: &Members,
    back: &mut Changes,
) -> Result<(), NoMemory>
    ensures { OnOk result (back.new
        ≡ back.old ++ as_changes (reversed (T.nodes t.now) (AnUpdate id.now fields.now))) }
{
    let old = fields_at(alloc, t, id, fields.as_map())?;
    set_some(id, old, back)?;
    restore_names(alloc, t, id, fields.as_map(), back)
}
