//! Who has a key among the children of a list, and which key comes next, one child not counted.
ghost use Rattle.std.specs.Prelude.{◌≡◌};
ghost use Rattle.std.specs.Option.{option_copied};
ghost use Rattle.std.specs.FinMap.{get};
ghost use Rattle.room_nodes.specs.Steps.{is_other, is_under, next_key, without};
ghost use Rattle.room_tree.specs.Skipped.{IsChildOf, has_other, is_own, key_of, next_beside, next_without, skip};

use crate::tree::Tree;
use room_ids::{NodeId, same_id};
use room_json::Text;

/// Whether a node is there as a child of another.
pub fn is_child_of<T: Tree>(t: &T, parent: &NodeId, id: &NodeId) -> bool
    ensures { result ≡ is_under parent.now id.now (get (T.nodes t.now) id.now) }
{
    match t.node(id) {
        Some(node) => !same_id(id, &NodeId::Root) && same_id(&node.parent, parent),
        None => false,
    }
}

fn is_other_than(id: Option<NodeId>, own: &NodeId) -> bool
    ensures { result ≡ is_other own.now id }
{
    match id {
        Some(c) => !same_id(&c, own),
        None => false,
    }
}

fn unless(id: Option<NodeId>, x: &NodeId) -> Option<NodeId>
    ensures { result ≡ skip x.now id }
{
    match id {
        Some(c) => { if same_id(&c, x) { None } else { Some(c) } },
        None => None,
    }
}

/// Whether another node than `own` has the key in the list, `replaced` not counted.
pub fn is_taken<T: Tree>(
    t: &T,
    list: &NodeId,
    key: &Text,
    own: &NodeId,
    replaced: Option<&NodeId>,
) -> bool
    requires { IsChildOf (T.nodes t.now) list.now (option_copied replaced) }
    ensures { result ≡ has_other (without (T.nodes t.now) (option_copied replaced.entry)) list.now own.now key.now }
{
    let found = t.child_at(list, key);
    match replaced {
        Some(x) => is_other_than(unless(found, x), own),
        None => is_other_than(found, own),
    }
}

/// The key of a node, where there is one.
fn key_there<'a, T: Tree>(t: &'a T, id: Option<NodeId>) -> Option<&'a Text>
    ensures { option_copied result ≡ key_of (T.nodes t.now) id }
{
    match id {
        Some(x) => match t.node(&x) {
            Some(node) => Some(&node.key),
            None => None,
        },
        None => None,
    }
}

fn next_key_of<'a, T: Tree>(t: &'a T, list: &NodeId, key: &Text) -> Option<&'a Text>
    ensures { option_copied result ≡ next_key (T.nodes t.now) list.now key.now }
{
    key_there(t, t.next_child(list, Some(key)))
}

fn is_id(id: Option<NodeId>, x: &NodeId) -> bool
    ensures { result ≡ is_own x.now id }
{
    match id {
        Some(c) => same_id(&c, x),
        None => false,
    }
}

/// The least key above the given one, that of one child not counted.
fn next_key_beside<'a, T: Tree>(t: &'a T, list: &NodeId, key: &Text, x: &NodeId) -> Option<&'a Text>
    ensures { option_copied result ≡ next_beside (T.nodes t.now) list.now x.now key.now }
{
    let above = next_key_of(t, list, key)?;
    if is_id(t.next_child(list, Some(key)), x) {
        next_key_of(t, list, above)
    } else {
        Some(above)
    }
}

/// The least key above the given one among the children of a list, `replaced` not counted.
pub fn next_key<'a, T: Tree>(
    t: &'a T,
    list: &NodeId,
    key: &Text,
    replaced: Option<&NodeId>,
) -> Option<&'a Text>
    requires { IsChildOf (T.nodes t.now) list.now (option_copied replaced) }
    ensures { option_copied result ≡ next_without (T.nodes t.now) (option_copied replaced.entry) list.now key.now }
{
    match replaced {
        Some(x) => next_key_beside(t, list, key, x),
        None => next_key_of(t, list, key),
    }
}
