//! The calls that every tree has.
ghost use Rattle.std.specs.Prelude.{◌≡◌, ℕ, ◌+◌, ◌<◌, ◌≤◌, None, Some, OnOk, OnErr, IfOk};
ghost use Rattle.std.specs.Option.{option_copied};
ghost use Rattle.std.specs.FinMap as map;
ghost use Rattle.room_ids.specs.Order.{node_cmp};
ghost use Rattle.room_nodes.specs.declared.nodes.Node.{Node as NodeValue};
ghost use Rattle.room_nodes.specs.Shape.{Nodes, empty_tree, IsFormed, IsFree, IsLeaf, child_at};
ghost use Rattle.room_tree.specs.Skipped.{next_child as child_after};
ghost use Rattle.room_nodes.specs.Sound.{IsSoundTree};
ghost use Rattle.room_nodes.specs.Primitives.{CanHold, CanStand, fields_in, key_in, with_fields_at, with_key_at};

use room_ids::NodeId;
use room_json::{Members, NoMemory, Text};
use room_nodes::Node;
use std::alloc::Global;

/// A well-formed tree of nodes, however it is kept: contracts see a finite map from id to node, and beside it `spare`,
/// the number of nodes that can be put without taking memory. That ids are in range, texts UTF-8, values of the
/// profile, and an object's fields in byte order of their names, each name once, is learnt from the type, at no cost.
pub trait Tree: Drop {
    ghost nodes: { Self → map.FinMap node_cmp NodeValue };

    ghost spare: { Self → ℕ };

    /// The root alone, an object without fields.
    fn empty(alloc: Global) -> Result<Self, NoMemory>
        ensures { IfOk result (λ t. nodes t ≡ empty_tree) };

    /// What stands at an id.
    fn node(&self, id: &NodeId) -> Option<&Node>
        ensures { option_copied result ≡ map.get (nodes self.now) id.now };

    /// The child of a node with that key.
    fn child_at(&self, parent: &NodeId, key: &Text) -> Option<NodeId>
        ensures { result ≡ child_at (nodes self.now) parent.now key.now };

    /// A node's first child in byte order of the keys, or its first with a key above the given one.
    fn next_child(&self, parent: &NodeId, key: Option<&Text>) -> Option<NodeId>
        ensures { result ≡ child_after (nodes self.now) parent.now (option_copied key.entry) };

    /// The number of nodes, with the root.
    fn count(&self) -> u64
        ensures { result ≡ map.len (nodes self.now) };

    /// Makes `spare` at least `count`, and changes nothing else.
    fn reserve(&mut self, count: u64) -> Result<(), NoMemory>
        ensures same { nodes self.new ≡ nodes self.old }
        ensures ok { OnOk result (count ≤ spare self.new) }
        ensures err { OnErr result (spare self.new ≡ spare self.old) }
        ensures kept { spare self.old ≤ spare self.new };

    /// Puts a new node: under a node that is there and is no register, at a free key, one deeper, at most 60 deep,
    /// under a list at a position.
    fn put(&mut self, id: NodeId, node: Node)
        requires free { IsFree (nodes self.old) id node }
        requires room { 0 < spare self.old }
        ensures put { nodes self.new ≡ map.insert (nodes self.old) id node }
        ensures less { spare self.new + 1 ≡ spare self.old };

    /// Takes a node without children out, not the root.
    fn remove_leaf(&mut self, id: &NodeId) -> Node
        requires { IsLeaf (nodes self.old) id.now }
        ensures node { Some result ≡ map.get (nodes self.old) id.now }
        ensures rest { nodes self.new ≡ map.remove (nodes self.old) id.now }
        ensures more { spare self.new ≡ spare self.old + 1 };

    /// Gives an object other fields, of which none has the name of a child, and answers the old ones.
    fn swap_fields(&mut self, id: &NodeId, fields: Members) -> Members
        requires { CanHold (nodes self.old) id.now fields }
        ensures fields { result ≡ fields_in (map.get (nodes self.old) id.now) }
        ensures nodes { nodes self.new ≡ with_fields_at (nodes self.old) id.now fields }
        ensures same { spare self.new ≡ spare self.old };

    /// Gives a child of a list a free position, and answers the old one.
    fn swap_key(&mut self, id: &NodeId, key: Text) -> Text
        requires { CanStand (nodes self.old) id.now key }
        ensures key { result ≡ key_in (map.get (nodes self.old) id.now) }
        ensures nodes { nodes self.new ≡ with_key_at (nodes self.old) id.now key }
        ensures same { spare self.new ≡ spare self.old };

    ghost formed: { (t : Self) → IsFormed (nodes t) };

    ghost sound: { (t : Self) → IsSoundTree (nodes t) };
}
