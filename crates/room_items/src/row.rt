//! What an item says of a node below the root.
use room_ids::NodeId;
use room_json::Text;
use room_nodes::Kind;

/// A node below the root, without its depth.
#[derive(Drop)]
pub(crate) struct Row {
    pub(crate) id: NodeId,
    pub(crate) parent: NodeId,
    pub(crate) key: Text,
    pub(crate) kind: Kind,
}
