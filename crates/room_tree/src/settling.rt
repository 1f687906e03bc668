//! What becomes of an operation on a tree, and the tests of a tree on which it rests.
ghost use Rattle.std.specs.Prelude.{◌≡◌, IfOk, IfSome, true, if◌then◌else◌};
ghost use Rattle.std.specs.Option.{option_copied};
ghost use Rattle.std.specs.FinMap.{get};
ghost use Rattle.room_ids.specs.Position.{is_pos, between as between_of, IsBelow};
ghost use Rattle.room_nodes.specs.Steps.{holds_list, holds_object, has_room, without, without_replaced};
ghost use Rattle.room_nodes.specs.declared.nodes.Body.TheVariants.{SetKey as ASetKey};
ghost use Rattle.room_tree.specs.Settlement.{settlement, fitting, list_of as list_above};
ghost use Rattle.room_tree.specs.Settlement.{IsCreateSettled, placed_without};
ghost use Rattle.room_tree.specs.Skipped.{IsChildOf};

use crate::taking::{is_child_of, is_taken, next_key};
use crate::tree::Tree;
use room_ids::{NodeId, Pos, PosFault, between, same_id};
use room_json::{NoMemory, Text};
use room_nodes::{Body, Kind, Op};
use std::alloc::Global;

/// What becomes of an operation on a tree.
#[derive(Drop)]
pub enum Settled {
    /// It acts as it is.
    Same,
    /// Another node has its position: it acts at this one.
    Moved(Pos),
    /// It does nothing.
    Void,
}

fn position_of(alloc: Global, key: Option<&Text>) -> Result<Option<Pos>, NoMemory>
    requires { IfSome (option_copied key) (λ k. is_pos k ≡ true) }
    ensures { IfOk result (λ p. p ≡ option_copied key.entry) }
{
    match key {
        Some(k) => match Pos::read(alloc, k)? {
            Some(p) => Ok(Some(p)),
            None => unreachable!(),
        },
        None => Ok(None),
    }
}

/// Between a position that is taken and the next one.
fn move_between(alloc: Global, x: &Pos, y: Option<&Text>) -> Result<Settled, NoMemory>
    requires pos { IfSome (option_copied y) (λ k. is_pos k ≡ true) }
    requires below { IfSome (option_copied y) (λ k. IsBelow x.now k) }
    ensures { IfOk result (λ s. s ≡ fitting (between_of x.now (option_copied y.entry))) }
{
    let above = position_of(alloc, y)?;
    match between(alloc, x, above.as_ref()) {
        Ok(p) => Ok(Settled::Moved(p)),
        Err(PosFault::TooLong(_)) => Ok(Settled::Void),
        Err(PosFault::Memory) => Err(NoMemory),
    }
}

/// A node at a position in a list, `replaced` not counted.
fn place<T: Tree>(
    alloc: Global,
    t: &T,
    list: &NodeId,
    own: &NodeId,
    key: &Text,
    replaced: Option<&NodeId>,
) -> Result<Settled, NoMemory>
    requires under { IsChildOf (T.nodes t.now) list.now (option_copied replaced) }
    requires list { holds_list (get (T.nodes t.now) list.now) ≡ true }
    ensures { IfOk result (λ s. s
        ≡ placed_without (T.nodes t.now) (option_copied replaced.entry) list.now own.now key.now) }
{
    match Pos::read(alloc, key)? {
        Some(x) => {
            if is_taken(t, list, key, own, replaced) {
                move_between(alloc, &x, next_key(t, list, key, replaced))
            } else {
                Ok(Settled::Same)
            }
        },
        None => Ok(Settled::Void),
    }
}

/// Whether a list is at an id.
pub fn is_list_at<T: Tree>(t: &T, id: &NodeId) -> bool
    ensures { result ≡ holds_list (get (T.nodes t.now) id.now) }
{
    match t.node(id) {
        Some(node) => match &node.kind {
            Kind::List => true,
            _ => false,
        },
        None => false,
    }
}

/// Whether a node may be put under the one at an id.
pub fn has_room_at<T: Tree>(t: &T, id: &NodeId) -> bool
    ensures { result ≡ has_room (get (T.nodes t.now) id.now) }
{
    match t.node(id) {
        Some(node) => match &node.kind {
            Kind::Register(_) => false,
            _ => node.depth < 60,
        },
        None => false,
    }
}

fn list_of<T: Tree>(t: &T, id: &NodeId) -> Option<NodeId>
    ensures { result ≡ list_above (T.nodes t.now) id.now }
{
    let node = t.node(id)?;
    if same_id(id, &NodeId::Root) || !is_list_at(t, &node.parent) {
        None
    } else {
        Some(node.parent)
    }
}

fn settle_key<T: Tree>(alloc: Global, t: &T, node: &NodeId, key: &Text) -> Result<Settled, NoMemory>
    ensures { IfOk result (λ s. s ≡ settlement (T.nodes t.now) (ASetKey node.now key.now)) }
{
    match list_of(t, node) {
        Some(list) => place(alloc, t, &list, node, key, None),
        None => Ok(Settled::Void),
    }
}

/// The child of a list that a create takes out.
pub fn replaced_child<T: Tree>(t: &T, list: &NodeId, replaces: &Option<NodeId>) -> Option<NodeId>
    ensures without { without (T.nodes t.now) result ≡ without_replaced (T.nodes t.now) list.now replaces.now }
    ensures under { IsChildOf (T.nodes t.now) list.now result }
{
    match replaces {
        Some(x) => {
            if is_child_of(t, list, x) {
                Some(*x)
            } else {
                None
            }
        },
        None => None,
    }
}

fn settle_create<T: Tree>(
    alloc: Global,
    t: &T,
    node: &NodeId,
    parent: &NodeId,
    key: &Text,
    replaces: &Option<NodeId>,
) -> Result<Settled, NoMemory>
    ensures { IfOk result (IsCreateSettled (T.nodes t.now) node.now parent.now key.now replaces.now) }
{
    if t.node(node).is_some() || !has_room_at(t, parent) {
        return Ok(Settled::Void);
    }
    if !is_list_at(t, parent) {
        return Ok(Settled::Same);
    }
    let replaced = replaced_child(t, parent, replaces);
    place(alloc, t, parent, node, key, replaced.as_ref())
}

/// Whether an object is at an id.
pub fn is_object_at<T: Tree>(t: &T, id: &NodeId) -> bool
    ensures { result ≡ holds_object (get (T.nodes t.now) id.now) }
{
    match t.node(id) {
        Some(node) => match &node.kind {
            Kind::Object(_) => true,
            _ => false,
        },
        None => false,
    }
}

fn live_where(live: bool) -> Settled
    ensures { result ≡ (if live then Settled.Same else Settled.Void) }
{
    if live { Settled::Same } else { Settled::Void }
}

pub(crate) fn settle_body<T: Tree>(alloc: Global, t: &T, body: &Body) -> Result<Settled, NoMemory>
    ensures { IfOk result (λ s. s ≡ settlement (T.nodes t.now) body.now) }
{
    match body {
        Body::SetKey { node, key } => settle_key(alloc, t, node, key),
        Body::Create {
            node,
            parent,
            key,
            replaces,
            kind: _,
        } => settle_create(alloc, t, node, parent, key, replaces),
        Body::Update { node, fields: _ } => Ok(live_where(is_object_at(t, node))),
        Body::Delete { node } => {
            Ok(live_where(t.node(node).is_some() && !same_id(node, &NodeId::Root)))
        },
        Body::DeleteKey { node, key: _ } => Ok(live_where(is_object_at(t, node))),
    }
}

/// What becomes of an operation: it is void, acts as it is, or acts at another position.
pub fn settle<T: Tree>(alloc: Global, t: &T, op: &Op) -> Result<Settled, NoMemory>
    ensures { IfOk result (λ s. s ≡ settlement (T.nodes t.now) op.now.body) }
{
    settle_body(alloc, t, &op.body)
}
