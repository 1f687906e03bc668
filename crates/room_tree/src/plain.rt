//! A tree as a sorted vector.
ghost use Rattle.std.specs.Prelude.{◌≡◌, ◌∷◌, [], IfOk, ◌&&◌, option_map, ◌-◌, ◌+◌, ◌<◌, ◌≤◌, IsTrue, true};
ghost use Rattle.std.specs.Prelude.{length, insert, remove, get_or, vec_len, vec_capacity, None, Some};
ghost use Rattle.std.specs.Option.{option_copied};
ghost use Rattle.std.specs.Ordering.{nat_cmp, eq_by_cmp, is_lt};
ghost use Rattle.std.specs.Cmp.Lexicographic.{slice_cmp};
ghost use Rattle.std.specs.FinMap.{is_sorted, from_sorted, find};
ghost use Rattle.room_ids.specs.Order.{node_cmp};
ghost use Rattle.room_tree.specs.Nearest.{place_of, found_of, keyed, lesser_of, may_follow as may_follow_of};
ghost use Rattle.room_tree.specs.Nearest.{nearest_of};
ghost use Rattle.room_nodes.specs.Shape.{bare_root, IsFormed, is_child, child_entries, is_object};
ghost use Rattle.room_nodes.specs.Sound.{IsSoundTree};
ghost use Rattle.room_nodes.proofs.SoundOnce.{tree_once};
ghost use Rattle.room_nodes.specs.Steps.{on_fields};
ghost use Rattle.room_nodes.specs.declared.nodes.Node.{Node as NodeValue};
ghost use Rattle.room_ids.specs.declared.ids.NodeId.{NodeId as IdValue};
ghost use Rattle.room_ids.specs.declared.ids.NodeId.TheVariants.{Root as TheRoot};
ghost use Rattle.room_nodes.specs.Primitives.{kind_fields};

use crate::tree::Tree;
use room_ids::{NodeId, compare, same_id};
use room_json::{Members, NoMemory, Sound, Text};
use room_nodes::{Kind, Node};
use std::alloc::Global;
use std::cmp::Ordering;

/// A vector of nodes with their ids, in the order of the ids.
#[derive(Drop)]
pub struct PlainTree {
    entries: Vec<(NodeId, Node)>,
    ghost sorted: { IsTrue (is_sorted node_cmp entries.items) },
    ghost formed: { IsFormed (from_sorted entries.items) },
    ghost sound: { IsSoundTree (from_sorted entries.items) } by { tree_once (from_sorted entries.items) },
}

fn lookup<'a>(entries: &'a [(NodeId, Node)], id: &NodeId) -> Option<&'a Node>
    ensures { option_copied result ≡ find node_cmp id.now entries.now }
{
    for entry in entries {
        if compare(id, &entry.0) == Ordering::Equal {
            return Some(&entry.1);
        }
    }
    None
}

fn place(entries: &[(NodeId, Node)], id: &NodeId) -> usize
    ensures place { result ≡ place_of id.now entries.now }
    ensures within { result ≤ length entries.now }
{
    let mut at = 0;
    for entry in entries {
        if compare(id, &entry.0) != Ordering::Greater {
            return at;
        }
        at += 1;
    }
    at
}

fn insert_at(entries: &mut Vec<(NodeId, Node)>, at: usize, id: NodeId, node: Node)
    requires within { at ≤ vec_len entries.old }
    requires room { vec_len entries.old < vec_capacity entries.old }
    ensures items { entries.new.items ≡ insert entries.old.items at (id, node) }
    ensures len { vec_len entries.new ≡ vec_len entries.old + 1 }
    ensures capacity { vec_capacity entries.new ≡ vec_capacity entries.old }
{
    entries.insert(at, (id, node)).unwrap();
}

fn is_child_of(parent: &NodeId, entry: &(NodeId, Node)) -> bool
    ensures { result ≡ is_child parent.now entry.now }
{
    !same_id(&entry.0, &NodeId::Root) && same_id(&entry.1.parent, parent)
}

fn same_text(a: &Text, b: &Text) -> bool
    ensures { result ≡ eq_by_cmp (slice_cmp nat_cmp) a.now b.now }
{
    a.as_str().cmp(b.as_str()) == Ordering::Equal
}

fn stands_at(parent: &NodeId, key: &Text, entry: &(NodeId, Node)) -> bool
    ensures { result ≡ (is_child parent.now entry.now && eq_by_cmp (slice_cmp nat_cmp) key.now entry.now.1.key) }
{
    is_child_of(parent, entry) && same_text(key, &entry.1.key)
}

fn find_child(entries: &[(NodeId, Node)], parent: &NodeId, key: &Text) -> Option<NodeId>
    ensures { result ≡ found_of parent.now key.now entries.now }
{
    for entry in entries {
        if stands_at(parent, key, entry) {
            return Some(entry.0);
        }
    }
    None
}

fn is_below(a: &Text, b: &Text) -> bool
    ensures { result ≡ is_lt (slice_cmp nat_cmp a.now b.now) }
{
    a.as_str().cmp(b.as_str()) == Ordering::Less
}

fn may_follow(parent: &NodeId, key: Option<&Text>, entry: &(NodeId, Node)) -> bool
    ensures { result ≡ may_follow_of parent.now (option_copied key.entry) entry.now }
{
    is_child_of(parent, entry)
        && match key {
            Some(key) => is_below(key, &entry.1.key),
            None => true,
        }
}

fn lesser<'a>(a: &'a (NodeId, Node), best: Option<&'a (NodeId, Node)>) -> Option<&'a (NodeId, Node)>
    ensures { option_map keyed (option_copied result) ≡ lesser_of a.now (option_copied best.entry) }
{
    match best {
        Some(b) => {
            if is_below(&b.1.key, &a.1.key) {
                Some(b)
            } else {
                Some(a)
            }
        },
        None => Some(a),
    }
}

fn nearest<'a>(
    entries: &'a [(NodeId, Node)],
    parent: &NodeId,
    key: Option<&Text>,
) -> Option<&'a (NodeId, Node)>
    ensures { option_map keyed (option_copied result) ≡ nearest_of parent.now (option_copied key.entry) entries.now }
{
    let mut best = None;
    let mut at = entries.len();
    while at > 0 {
        at -= 1;
        if may_follow(parent, key, &entries[at]) {
            best = lesser(&entries[at], best);
        }
    }
    best
}

fn take_fields(node: Node, fields: Members) -> (Node, Members)
    requires { is_object node.kind ≡ true }
    ensures node { result.0 ≡ on_fields (λ _. fields) node }
    ensures fields { result.1 ≡ kind_fields node.kind }
{
    let Node {
        parent,
        key,
        depth,
        kind,
    } = node;
    match kind {
        Kind::Object(old) => (
            Node {
                parent,
                key,
                depth,
                kind: Kind::Object(fields),
            },
            old,
        ),
        _ => unreachable!(),
    }
}

fn take_key(node: Node, key: Text) -> (Node, Text)
    ensures node { result.0 ≡ record node { key = key } }
    ensures key { result.1 ≡ node.key }
{
    let Node {
        parent,
        key: old,
        depth,
        kind,
    } = node;
    (
        Node {
            parent,
            key,
            depth,
            kind,
        },
        old,
    )
}

fn take_at(entries: &mut Vec<(NodeId, Node)>, at: usize) -> Node
    requires { at < vec_len entries.old }
    ensures node { (d : NodeValue) (i : IdValue) → result ≡ (get_or entries.old.items at (i, d)).1 }
    ensures items { entries.new.items ≡ remove entries.old.items at }
    ensures len { vec_len entries.new + 1 ≡ vec_len entries.old }
    ensures capacity { vec_capacity entries.new ≡ vec_capacity entries.old }
{
    let (_, node) = entries.remove(at);
    node
}

fn only_root(alloc: Global) -> Result<Vec<(NodeId, Node)>, NoMemory>
    ensures { IfOk result (λ v. v.items ≡ (TheRoot, bare_root) ∷ []) }
{
    let mut entries = Vec::new(alloc);
    let root = Node {
        parent: NodeId::Root,
        key: Text::new(alloc),
        depth: 0,
        kind: Kind::Object(Members::new(alloc)),
    };
    entries.push((NodeId::Root, root))?;
    Ok(entries)
}

impl Tree for PlainTree {
    ghost nodes = { λ t. from_sorted t.entries.items };

    ghost spare = { λ t. vec_capacity t.entries - vec_len t.entries };

    ghost formed = { λ t. t.formed };

    ghost sound = { λ t. t.sound };

    fn empty(alloc: Global) -> Result<PlainTree, NoMemory> {
        let entries = only_root(alloc)?;
        Ok(PlainTree { entries })
    }

    fn node(&self, id: &NodeId) -> Option<&Node> {
        lookup(self.entries.as_slice(), id)
    }

    fn child_at(&self, parent: &NodeId, key: &Text) -> Option<NodeId> {
        find_child(self.entries.as_slice(), parent, key)
    }

    fn next_child(&self, parent: &NodeId, key: Option<&Text>) -> Option<NodeId> {
        match nearest(self.entries.as_slice(), parent, key) {
            Some(entry) => Some(entry.0),
            None => None,
        }
    }

    fn count(&self) -> u64 {
        self.entries.len() as u64
    }

    fn reserve(&mut self, count: u64) -> Result<(), NoMemory> {
        self.entries.reserve(count as usize)?;
        Ok(())
    }

    fn put(&mut self, id: NodeId, node: Node) {
        id.sound();
        node.sound();
        let at = place(self.entries.as_slice(), &id);
        insert_at(&mut self.entries, at, id, node);
    }

    fn remove_leaf(&mut self, id: &NodeId) -> Node {
        let at = place(self.entries.as_slice(), id);
        take_at(&mut self.entries, at)
    }

    fn swap_fields(&mut self, id: &NodeId, fields: Members) -> Members {
        fields.sound();
        let at = place(self.entries.as_slice(), id);
        let (node, old) = take_fields(take_at(&mut self.entries, at), fields);
        insert_at(&mut self.entries, at, *id, node);
        old
    }

    fn swap_key(&mut self, id: &NodeId, key: Text) -> Text {
        key.sound();
        let at = place(self.entries.as_slice(), id);
        let (node, old) = take_key(take_at(&mut self.entries, at), key);
        insert_at(&mut self.entries, at, *id, node);
        old
    }
}
