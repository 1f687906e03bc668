//! Nodes, operations and changes.
use room_ids::{NodeId, OpId};
use room_json::{Json, Members, Seq, Text};

/// What a node is: an object with its fields, a list, a map, or a register with its value.
#[derive(Drop)]
pub enum Kind {
    Object(Members),
    List,
    Map,
    Register(Json),
}

/// A node of a tree: where it stands, how deep, and what it is.
#[derive(Drop)]
pub struct Node {
    pub parent: NodeId,
    pub key: Text,
    pub depth: u64,
    pub kind: Kind,
}

/// What an operation does.
#[derive(Drop)]
pub enum Body {
    /// Gives a child of a list another position.
    SetKey {
        node: NodeId,
        key: Text,
    },
    /// Makes a node.
    Create {
        node: NodeId,
        parent: NodeId,
        key: Text,
        replaces: Option<NodeId>,
        kind: Kind,
    },
    /// Sets fields of an object.
    Update {
        node: NodeId,
        fields: Members,
    },
    /// Removes a node with all below it.
    Delete {
        node: NodeId,
    },
    /// Removes a field or a child of an object.
    DeleteKey {
        node: NodeId,
        key: Text,
    },
}

/// An operation.
#[derive(Drop)]
pub struct Op {
    pub id: OpId,
    pub body: Body,
}

/// A change that goes back: an operation, or a patch of the own presence.
#[derive(Drop)]
pub enum Change {
    Op(Body),
    Presence(Members),
}

/// Operations.
pub type Ops = Seq<Op>;

/// Operations without their ids.
pub type Bodies = Seq<Body>;

/// Changes, the newest first.
pub type Changes = Seq<Change>;
