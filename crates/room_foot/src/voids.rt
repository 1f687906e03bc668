//! Whether an operation does nothing.
ghost use Rattle.std.specs.Prelude.{◌≡◌};
ghost use Rattle.room_nodes.specs.Steps.{is_void as is_void_of};
ghost use Rattle.room_foot.specs.Meeting.{is_void_create as is_void_create_of};
ghost use Rattle.room_nodes.specs.declared.nodes.Body.TheVariants.{SetKey as ASetKey};

use crate::taking::is_placed;
use room_ids::{NodeId, same_id};
use room_json::Text;
use room_nodes::Body;
use room_tree::{Tree, has_room_at, is_list_at, is_object_at, replaced_child};

fn is_void_key<T: Tree>(t: &T, id: &NodeId, key: &Text) -> bool
    ensures { result ≡ is_void_of (T.nodes t.now) (ASetKey id.now key.now) }
{
    match t.node(id) {
        Some(node) => {
            same_id(id, &NodeId::Root)
                || !is_list_at(t, &node.parent)
                || !is_placed(t, &node.parent, id, key, None)
        },
        None => true,
    }
}

fn is_void_create<T: Tree>(
    t: &T,
    id: &NodeId,
    parent: &NodeId,
    key: &Text,
    replaces: &Option<NodeId>,
) -> bool
    ensures { result ≡ is_void_create_of (T.nodes t.now) id.now parent.now key.now replaces.now }
{
    if t.node(id).is_some() || !has_room_at(t, parent) {
        return true;
    }
    if !is_list_at(t, parent) {
        return false;
    }
    let replaced = replaced_child(t, parent, replaces);
    !is_placed(t, parent, id, key, replaced.as_ref())
}

/// Whether an operation does nothing, with no memory for a new position.
pub(crate) fn is_void<T: Tree>(t: &T, body: &Body) -> bool
    ensures { result ≡ is_void_of (T.nodes t.now) body.now }
{
    match body {
        Body::SetKey { node, key } => is_void_key(t, node, key),
        Body::Create {
            node,
            parent,
            key,
            replaces,
            kind: _,
        } => is_void_create(t, node, parent, key, replaces),
        Body::Update { node, fields: _ } => !is_object_at(t, node),
        Body::Delete { node } => t.node(node).is_none() || same_id(node, &NodeId::Root),
        Body::DeleteKey { node, key: _ } => !is_object_at(t, node),
    }
}
