//! The parts of a tree that operations read and write.
use room_ids::NodeId;
use room_json::{Copied, NoMemory, Seq, Text};
use std::alloc::Global;

/// A part of a tree that an operation reads or writes.
#[derive(Drop)]
pub enum Cell {
    /// Whether a node is there, its parent, key and depth, what it is, and a register's value.
    Node(NodeId),
    /// The field or child of a node at a key.
    Slot(NodeId, Text),
    /// Every slot of a node.
    All(NodeId),
}

impl Copied for Cell {
    fn copy(&self, alloc: Global) -> Result<Cell, NoMemory> {
        match self {
            Cell::Node(id) => Ok(Cell::Node(*id)),
            Cell::Slot(id, key) => Ok(Cell::Slot(*id, key.copy(alloc)?)),
            Cell::All(id) => Ok(Cell::All(*id)),
        }
    }
}

/// Cells.
pub type Cells = Seq<Cell>;
