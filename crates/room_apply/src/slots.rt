//! The slots of a node: children that go, and fields that are left.
ghost use Rattle.std.specs.Prelude.{◌≡◌, ◌∷◌, [], OnOk, IfOk, true, None, Some};
ghost use Rattle.std.specs.Option.{option_copied};
ghost use Rattle.std.specs.FinMap.{get};
ghost use Rattle.room_json.specs.View.{members_view};
ghost use Rattle.room_nodes.specs.Steps.{without_child, without_children, without_replaced, without_field, with_fields};
ghost use Rattle.room_nodes.specs.Steps.{holds_object};
ghost use Rattle.room_nodes.specs.Primitives.{fields_in};
ghost use Rattle.room_apply.specs.Edits.{KeepsUndo};
ghost use Rattle.room_apply.specs.Left.{fields_left};
ghost use Rattle.room_apply.specs.Within.{ArePuts};
ghost use Rattle.room_json.specs.Value.{nothing};

use crate::cutting::cut;
use room_ids::NodeId;
use room_json::{Copied, Json, Members, NoMemory, Text, merge};
use room_nodes::{Kind, Turn};
use room_tree::{Tree, is_child_of};
use std::alloc::Global;
use std::collections::BTreeMap;

/// Takes the child at a key out, with all below it.
pub(crate) fn cut_at<T: Tree>(
    t: &mut T,
    parent: &NodeId,
    key: &Text,
    done: &mut Vec<Turn>,
) -> Result<(), NoMemory>
    ensures ok { OnOk result (T.nodes t.new ≡ without_child (T.nodes t.old) parent.now key.now) }
    ensures puts { ArePuts done.old.items → ArePuts done.new.items }
    ensures undo { KeepsUndo (T.nodes t.old) (T.spare t.old) done.old.items (T.nodes t.new)
        (T.spare t.new) done.new.items }
{
    match t.child_at(parent, key) {
        Some(child) => cut(t, &child, done),
        None => Ok(()),
    }
}

/// Takes the child of a list out that a create replaces, with all below it.
pub(crate) fn cut_replaced<T: Tree>(
    t: &mut T,
    parent: &NodeId,
    replaces: Option<&NodeId>,
    done: &mut Vec<Turn>,
) -> Result<(), NoMemory>
    ensures ok { OnOk result (T.nodes t.new ≡ without_replaced (T.nodes t.old) parent.now
        (option_copied replaces.entry)) }
    ensures puts { ArePuts done.old.items → ArePuts done.new.items }
    ensures undo { KeepsUndo (T.nodes t.old) (T.spare t.old) done.old.items (T.nodes t.new)
        (T.spare t.new) done.new.items }
{
    match replaces {
        Some(x) => {
            if is_child_of(t, parent, x) {
                cut(t, x, done)
            } else {
                Ok(())
            }
        },
        None => Ok(()),
    }
}

/// Takes the children at some names out, with all below them.
pub(crate) fn cut_names<T: Tree>(
    t: &mut T,
    parent: &NodeId,
    names: &BTreeMap<Text, Json>,
    done: &mut Vec<Turn>,
) -> Result<(), NoMemory>
    ensures ok { OnOk result (T.nodes t.new ≡ without_children (T.nodes t.old) parent.now
        (members_view names.now.entries)) }
    ensures puts { ArePuts done.old.items → ArePuts done.new.items }
    ensures undo { KeepsUndo (T.nodes t.old) (T.spare t.old) done.old.items (T.nodes t.new)
        (T.spare t.new) done.new.items }
{
    for (name, _) in names.iter() {
        cut_at(t, parent, name, done)?;
    }
    Ok(())
}

fn without(alloc: Global, fields: &Members, key: &Text) -> Result<Members, NoMemory>
    ensures { IfOk result (λ m. m ≡ without_field key.now fields.now) }
{
    if fields.len() == 0 {
        return Ok(Members::new(alloc));
    }
    let mut left = fields.copy(alloc)?;
    drop(left.remove(key));
    Ok(left)
}

/// The fields of an object without one of them, where it has it.
pub(crate) fn fields_without<T: Tree>(
    alloc: Global,
    t: &T,
    id: &NodeId,
    key: &Text,
) -> Result<Option<Members>, NoMemory>
    ensures { IfOk result (λ o. o ≡ fields_left key.now (get (T.nodes t.now) id.now)) }
{
    match t.node(id) {
        Some(node) => match &node.kind {
            Kind::Object(fields) => {
                if fields.find(key).is_none() {
                    return Ok(None);
                }
                Ok(Some(without(alloc, fields, key)?))
            },
            _ => Ok(None),
        },
        None => Ok(None),
    }
}

/// A name alone, as the only member.
pub(crate) fn name_of(alloc: Global, key: &Text) -> Result<Members, NoMemory>
    ensures { IfOk result (λ m. m ≡ (key.now, nothing) ∷ []) }
{
    let mut names = Members::new(alloc);
    drop(names.set(key.copy(alloc)?, Json::Null)?);
    Ok(names)
}

/// The fields of an object with those of a patch.
pub(crate) fn fields_with<T: Tree>(
    alloc: Global,
    t: &T,
    id: &NodeId,
    patch: &Members,
) -> Result<Members, NoMemory>
    requires { holds_object (get (T.nodes t.now) id.now) ≡ true }
    ensures { IfOk result (λ m. m ≡ with_fields patch.now (fields_in (get (T.nodes t.now) id.now))) }
{
    match t.node(id) {
        Some(node) => match &node.kind {
            Kind::Object(fields) => {
                let mut all = fields.copy(alloc)?;
                merge(alloc, &mut all, patch)?;
                Ok(all)
            },
            _ => unreachable!(),
        },
        None => unreachable!(),
    }
}
