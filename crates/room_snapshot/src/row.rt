//! What a snapshot says of a node below the root.
use room_ids::NodeId;
use room_nodes::Node;

/// A node below the root, whose depth isn't known yet.
#[derive(Drop)]
pub(crate) struct Row {
    pub(crate) id: NodeId,
    pub(crate) node: Node,
}
