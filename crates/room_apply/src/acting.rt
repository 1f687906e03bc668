//! What an operation does: the nodes that it removes go, and what is left of it is answered.
ghost use Rattle.std.specs.Prelude.{◌≡◌, ◌<◌, ◌≤◌, ◌+◌, List, ℕ, None, Some, OnOk, IfOk, true, false, is_some};
ghost use Rattle.std.specs.Option.{option_copied};
ghost use Rattle.std.specs.FinMap.{get};
ghost use Rattle.room_nodes.specs.Shape.{Nodes};
ghost use Rattle.room_nodes.specs.Steps.{changed, on_fields, without_child, without_field, cleared, depth_in, effect};
ghost use Rattle.room_nodes.specs.Steps.{holds_object, has_room, is_void, settled_body};
ghost use Rattle.room_nodes.specs.declared.cells.Cell.{Cell};
ghost use Rattle.room_nodes.specs.declared.nodes.Body.TheVariants.{Create as ACreate, Update as AnUpdate};
ghost use Rattle.room_apply.specs.Edits.{KeepsUndo, some_turn, turned_all};
ghost use Rattle.room_apply.specs.Left.{lefts};
ghost use Rattle.room_apply.specs.Ways.{made_by, node_count, object_in, owner_at, owner_by};
ghost use Rattle.room_apply.specs.Within.{ArePuts, IsFreshIn, IsGiving, IsNodeIn, IsOfFields, IsSlotIn, RunsIn, cells};

use crate::cutting::cut;
use crate::slots::{cut_at, cut_names, cut_replaced, fields_with, fields_without, name_of};
use room_ids::NodeId;
use room_json::{Members, NoMemory, Text};
use room_nodes::{Body, Node, Turn};
use room_tree::{Tree, is_list_at};
use std::alloc::Global;

/// What is left of an operation: other fields of an object, of some names, and then a node to put or a key to set.
#[derive(Drop)]
pub(crate) struct Left {
    pub(crate) fields: Option<Turn>,
    pub(crate) last: Option<Turn>,
    pub(crate) names: Members,
}

/// The fields that are left to change, and their names.
#[derive(Drop)]
struct Changed {
    fields: Option<Turn>,
    names: Members,
}

fn no_fields(alloc: Global) -> Changed
    ensures { result.fields ≡ None }
{
    Changed {
        fields: None,
        names: Members::new(alloc),
    }
}

/// Takes the child at a key out, and leaves the field there to be cleared.
fn clear_slot<T: Tree>(
    alloc: Global,
    t: &mut T,
    id: &NodeId,
    key: &Text,
    done: &mut Vec<Turn>,
) -> Result<Changed, NoMemory>
    ensures ok { IfOk result (λ l. turned_all (T.nodes t.new) (some_turn l.fields)
        ≡ changed (without_child (T.nodes t.old) id.now key.now) id.now (on_fields (without_field key.now))) }
    ensures within { IfOk result (λ l. (cs : List Cell) → IsNodeIn cs id.now → IsSlotIn cs id.now key.now
        → RunsIn cs l.names (T.nodes t.new) (some_turn l.fields)) }
    ensures kind { IfOk result (λ l. IsOfFields l.fields) }
    ensures object { IfOk result (λ l. object_in l.fields ≡ owner_at (T.nodes t.old) id.now key.now) }
    ensures puts { ArePuts done.old.items → ArePuts done.new.items }
    ensures undo { KeepsUndo (T.nodes t.old) (T.spare t.old) done.old.items (T.nodes t.new)
        (T.spare t.new) done.new.items }
{
    cut_at(t, id, key, done)?;
    match fields_without(alloc, t, id, key)? {
        Some(fields) => {
            let names = name_of(alloc, key)?;
            Ok(Changed {
                fields: Some(Turn::Fields(*id, fields)),
                names,
            })
        },
        None => Ok(no_fields(alloc)),
    }
}

/// Takes the children at the names of an update out, and leaves the fields to be set.
fn update<T: Tree>(
    alloc: Global,
    t: &mut T,
    id: &NodeId,
    fields: Members,
    done: &mut Vec<Turn>,
) -> Result<Changed, NoMemory>
    requires { holds_object (get (T.nodes t.old) id.now) ≡ true }
    ensures ok { IfOk result (λ l. turned_all (T.nodes t.new) (some_turn l.fields)
        ≡ effect (T.nodes t.old) (AnUpdate id.now fields)) }
    ensures within { IfOk result (λ l. RunsIn (cells (T.nodes t.old) (AnUpdate id.now fields)) l.names (T.nodes t.new)
        (some_turn l.fields)) }
    ensures kind { IfOk result (λ l. IsOfFields l.fields) }
    ensures object { IfOk result (λ l. object_in l.fields ≡ Some id.now) }
    ensures puts { ArePuts done.old.items → ArePuts done.new.items }
    ensures undo { KeepsUndo (T.nodes t.old) (T.spare t.old) done.old.items (T.nodes t.new)
        (T.spare t.new) done.new.items }
{
    cut_names(t, id, fields.as_map(), done)?;
    let all = fields_with(alloc, t, id, &fields)?;
    Ok(Changed {
        fields: Some(Turn::Fields(*id, all)),
        names: fields,
    })
}

/// Clears the place of a new node, but for the field there.
fn make_place<T: Tree>(
    alloc: Global,
    t: &mut T,
    parent: &NodeId,
    key: &Text,
    replaces: Option<&NodeId>,
    done: &mut Vec<Turn>,
) -> Result<Changed, NoMemory>
    requires { is_some (get (T.nodes t.old) parent.now) ≡ true }
    ensures ok { IfOk result (λ l. turned_all (T.nodes t.new) (some_turn l.fields)
        ≡ cleared (T.nodes t.old) parent.now key.now (option_copied replaces.entry)
        (get (T.nodes t.old) parent.now)) }
    ensures within { IfOk result (λ l. (cs : List Cell) → IsNodeIn cs parent.now → IsSlotIn cs parent.now key.now
        → RunsIn cs l.names (T.nodes t.new) (some_turn l.fields)) }
    ensures kind { IfOk result (λ l. IsOfFields l.fields) }
    ensures object { IfOk result (λ l. object_in l.fields ≡ owner_at (T.nodes t.old) parent.now key.now) }
    ensures puts { ArePuts done.old.items → ArePuts done.new.items }
    ensures undo { KeepsUndo (T.nodes t.old) (T.spare t.old) done.old.items (T.nodes t.new)
        (T.spare t.new) done.new.items }
{
    if is_list_at(t, parent) {
        cut_replaced(t, parent, replaces, done)?;
        Ok(no_fields(alloc))
    } else {
        clear_slot(alloc, t, parent, key, done)
    }
}

fn depth_under<T: Tree>(t: &T, parent: &NodeId) -> u64
    requires { has_room (get (T.nodes t.now) parent.now) ≡ true }
    ensures { result ≡ depth_in (get (T.nodes t.now) parent.now) + 1 }
{
    match t.node(parent) {
        Some(node) => node.depth + 1,
        None => unreachable!(),
    }
}

/// Clears the place of a new node, and leaves it to be put.
fn create<T: Tree>(
    alloc: Global,
    t: &mut T,
    id: NodeId,
    node: Node,
    replaces: &Option<NodeId>,
    done: &mut Vec<Turn>,
) -> Result<Left, NoMemory>
    requires live { is_void (T.nodes t.old) (ACreate id node.parent node.key replaces.now node.kind) ≡ false }
    requires settled { settled_body (T.nodes t.old) (ACreate id node.parent node.key replaces.now node.kind)
        ≡ ACreate id node.parent node.key replaces.now node.kind }
    requires depth { node.depth ≡ depth_in (get (T.nodes t.old) node.parent) + 1 }
    ensures ok { IfOk result (λ l. turned_all (T.nodes t.new) (lefts l.fields l.last)
        ≡ effect (T.nodes t.old) (ACreate id node.parent node.key replaces.now node.kind)) }
    ensures within { IfOk result (λ l. RunsIn
        (cells (T.nodes t.old) (ACreate id node.parent node.key replaces.now node.kind)) l.names (T.nodes t.new)
        (lefts l.fields l.last)) }
    ensures kinds { IfOk result (λ l. IsOfFields l.fields × (IsGiving l.last × IsFreshIn (T.nodes t.old) l.last)) }
    ensures object { IfOk result (λ l. object_in l.fields ≡ owner_at (T.nodes t.old) node.parent node.key) }
    ensures count { IfOk result (λ l. node_count l.last ≡ 1) }
    ensures puts { ArePuts done.old.items → ArePuts done.new.items }
    ensures undo { KeepsUndo (T.nodes t.old) (T.spare t.old) done.old.items (T.nodes t.new)
        (T.spare t.new) done.new.items }
{
    let left = make_place(alloc, t, &node.parent, &node.key, replaces.as_ref(), done)?;
    Ok(Left {
        fields: left.fields,
        last: Some(Turn::Put(id, node)),
        names: left.names,
    })
}

/// Does of a settled operation that isn't void that the nodes that it removes go, and answers what is left.
pub(crate) fn act<T: Tree>(
    alloc: Global,
    t: &mut T,
    body: Body,
    done: &mut Vec<Turn>,
) -> Result<Left, NoMemory>
    requires live { is_void (T.nodes t.old) body ≡ false }
    requires settled { settled_body (T.nodes t.old) body ≡ body }
    ensures ok { IfOk result (λ l. turned_all (T.nodes t.new) (lefts l.fields l.last) ≡ effect (T.nodes t.old) body) }
    ensures within { IfOk result (λ l. RunsIn (cells (T.nodes t.old) body) l.names (T.nodes t.new)
        (lefts l.fields l.last)) }
    ensures kinds { IfOk result (λ l. IsOfFields l.fields × (IsGiving l.last × IsFreshIn (T.nodes t.old) l.last)) }
    ensures object { IfOk result (λ l. object_in l.fields ≡ owner_by (T.nodes t.old) body) }
    ensures count { IfOk result (λ l. node_count l.last ≡ made_by body) }
    ensures puts { ArePuts done.old.items → ArePuts done.new.items }
    ensures undo { KeepsUndo (T.nodes t.old) (T.spare t.old) done.old.items (T.nodes t.new)
        (T.spare t.new) done.new.items }
{
    match body {
        Body::Create {
            node,
            parent,
            key,
            replaces,
            kind,
        } => {
            let depth = depth_under(t, &parent);
            let made = Node {
                parent,
                key,
                depth,
                kind,
            };
            create(alloc, t, node, made, &replaces, done)
        },
        Body::SetKey { node, key } => Ok(Left {
            fields: None,
            last: Some(Turn::Key(node, key)),
            names: Members::new(alloc),
        }),
        Body::Update { node, fields } => {
            let left = update(alloc, t, &node, fields, done)?;
            Ok(Left {
                fields: left.fields,
                last: None,
                names: left.names,
            })
        },
        Body::Delete { node } => {
            cut(t, &node, done)?;
            Ok(Left {
                fields: None,
                last: None,
                names: Members::new(alloc),
            })
        },
        Body::DeleteKey { node, key } => {
            let left = clear_slot(alloc, t, &node, &key, done)?;
            Ok(Left {
                fields: left.fields,
                last: None,
                names: left.names,
            })
        },
    }
}
