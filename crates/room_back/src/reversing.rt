//! What takes an operation back.
ghost use Rattle.std.specs.Prelude.{◌≡◌, ◌++◌, ◌∷◌, [], OnOk, IfOk};
ghost use Rattle.std.specs.FinMap.{get};
ghost use Rattle.room_nodes.specs.Reversal.{displaced, key_restored, reverse as reverse_of, reversed};
ghost use Rattle.room_nodes.specs.declared.nodes.Body.TheVariants.{Delete as ADelete};
ghost use Rattle.room_nodes.specs.Steps.{is_void as is_void_of};
ghost use Rattle.room_back.specs.Back.{LeadsBack, as_changes};

use crate::restoring::{push, restore};
use crate::slots::{restore_displaced, restore_slot};
use crate::updates::restore_update;
use room_ids::NodeId;
use room_json::{Copied, NoMemory, Sound, Text};
use room_nodes::{Body, Changes, Op};
use room_tree::{Settled, Tree, settle};
use std::alloc::Global;

fn is_void<T: Tree>(alloc: Global, t: &T, op: &Op) -> Result<bool, NoMemory>
    ensures { IfOk result (λ b. b ≡ is_void_of (T.nodes t.now) op.now.body) }
{
    match settle(alloc, t, op)? {
        Settled::Void => Ok(true),
        _ => Ok(false),
    }
}

/// Moves a node back to the key that it has.
fn restore_key<T: Tree>(
    alloc: Global,
    t: &T,
    id: &NodeId,
    back: &mut Changes,
) -> Result<(), NoMemory>
    ensures { OnOk result (back.new ≡ back.old ++ as_changes (key_restored id.now (get (T.nodes t.now) id.now))) }
{
    match t.node(id) {
        Some(node) => push(
            back,
            Body::SetKey {
                node: *id,
                key: node.key.copy(alloc)?,
            },
        ),
        None => Ok(()),
    }
}

/// Takes a node out, and restores what its create took out.
fn uncreate<T: Tree>(
    alloc: Global,
    t: &T,
    id: &NodeId,
    parent: &NodeId,
    key: &Text,
    replaces: &Option<NodeId>,
    back: &mut Changes,
) -> Result<(), NoMemory>
    ensures { OnOk result (back.new
        ≡ back.old ++ as_changes (ADelete id.now ∷ displaced (T.nodes t.now) parent.now key.now replaces.now)) }
{
    push(back, Body::Delete { node: *id })?;
    restore_displaced(alloc, t, parent, key, replaces, back)
}

/// Takes an operation back that isn't void.
fn restore_all<T: Tree>(
    alloc: Global,
    t: &T,
    body: &Body,
    back: &mut Changes,
) -> Result<(), NoMemory>
    ensures { OnOk result (back.new ≡ back.old ++ as_changes (reversed (T.nodes t.now) body.now)) }
{
    match body {
        Body::SetKey { node, key: _ } => restore_key(alloc, t, node, back),
        Body::Create {
            node,
            parent,
            key,
            replaces,
            kind: _,
        } => uncreate(alloc, t, node, parent, key, replaces, back),
        Body::Update { node, fields } => restore_update(alloc, t, node, fields, back),
        Body::Delete { node } => restore(alloc, t, node, back),
        Body::DeleteKey { node, key } => restore_slot(alloc, t, node, key, back),
    }
}

/// What takes an operation back that is made on a tree: nothing, where the operation is void. The tree stays as it is.
/// Fails only where memory runs out.
pub fn reverse<T: Tree>(alloc: Global, t: &T, op: &Op) -> Result<Changes, NoMemory>
    ensures changes { IfOk result (λ c. c ≡ as_changes (reverse_of (T.nodes t.now) op.now.body)) }
    ensures back { IfOk result (λ c. LeadsBack (T.nodes t.now) (op.now.body ∷ []) c) }
{
    op.sound();
    let mut back = Changes::new(alloc);
    if !is_void(alloc, t, op)? {
        restore_all(alloc, t, &op.body, &mut back)?;
    }
    Ok(back)
}
