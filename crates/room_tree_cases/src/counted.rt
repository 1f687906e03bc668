//! A tree that counts the calls made of it.
use room_ids::NodeId;
use room_json::{Members, NoMemory, Text};
use room_nodes::Node;
use room_tree::Tree;
use std::alloc::Global;
use std::cell::Cell;

#[derive(Drop)]
pub(crate) struct Counted<T> {
    tree: T,
    calls: Cell<u64>,
}

impl<T> Counted<T> {
    fn note(&self) {
        self.calls.set(self.calls.get().wrapping_add(1));
    }

    /// The calls since it was asked last.
    pub(crate) fn take_calls(&self) -> u64 {
        let calls = self.calls.get();
        self.calls.set(0);
        calls
    }
}

impl<T: Tree> Tree for Counted<T> {
    ghost nodes = { λ t. T.nodes t.tree };

    ghost spare = { λ t. T.spare t.tree };

    ghost formed = { λ t. T.formed t.tree };

    ghost sound = { λ t. T.sound t.tree };

    fn empty(alloc: Global) -> Result<Counted<T>, NoMemory> {
        let tree = T::empty(alloc)?;
        Ok(Counted {
            tree,
            calls: Cell::new(0),
        })
    }

    fn node(&self, id: &NodeId) -> Option<&Node> {
        self.note();
        self.tree.node(id)
    }

    fn child_at(&self, parent: &NodeId, key: &Text) -> Option<NodeId> {
        self.note();
        self.tree.child_at(parent, key)
    }

    fn next_child(&self, parent: &NodeId, key: Option<&Text>) -> Option<NodeId> {
        self.note();
        self.tree.next_child(parent, key)
    }

    fn count(&self) -> u64 {
        self.note();
        self.tree.count()
    }

    fn reserve(&mut self, count: u64) -> Result<(), NoMemory> {
        self.note();
        self.tree.reserve(count)
    }

    fn put(&mut self, id: NodeId, node: Node) {
        self.note();
        self.tree.put(id, node);
    }

    fn remove_leaf(&mut self, id: &NodeId) -> Node {
        self.note();
        self.tree.remove_leaf(id)
    }

    fn swap_fields(&mut self, id: &NodeId, fields: Members) -> Members {
        self.note();
        self.tree.swap_fields(id, fields)
    }

    fn swap_key(&mut self, id: &NodeId, key: Text) -> Text {
        self.note();
        self.tree.swap_key(id, key)
    }
}
