//! The primitive changes of a tree.
use crate::nodes::Node;
use room_ids::NodeId;
use room_json::{Members, Text};

/// One primitive change of a tree, as a value.
#[derive(Drop)]
pub enum Turn {
    /// The node goes in at the id.
    Put(NodeId, Node),
    /// The leaf at the id goes out.
    Cut(NodeId),
    /// The object at the id has these fields.
    Fields(NodeId, Members),
    /// The child of a list at the id has this key.
    Key(NodeId, Text),
}
