//! Copies of nodes, operations and changes.
use crate::nodes::{Body, Change, Kind, Node, Op};
use room_json::{Copied, NoMemory};
use std::alloc::Global;

impl Copied for Kind {
    fn copy(&self, alloc: Global) -> Result<Kind, NoMemory> {
        match self {
            Kind::Object(fields) => Ok(Kind::Object(fields.copy(alloc)?)),
            Kind::List => Ok(Kind::List),
            Kind::Map => Ok(Kind::Map),
            Kind::Register(value) => Ok(Kind::Register(value.copy(alloc)?)),
        }
    }
}

impl Copied for Node {
    fn copy(&self, alloc: Global) -> Result<Node, NoMemory> {
        Ok(Node {
            parent: self.parent,
            key: self.key.copy(alloc)?,
            depth: self.depth,
            kind: self.kind.copy(alloc)?,
        })
    }
}

impl Copied for Body {
    fn copy(&self, alloc: Global) -> Result<Body, NoMemory> {
        match self {
            Body::SetKey { node, key } => Ok(Body::SetKey {
                node: *node,
                key: key.copy(alloc)?,
            }),
            Body::Create {
                node,
                parent,
                key,
                replaces,
                kind,
            } => Ok(Body::Create {
                node: *node,
                parent: *parent,
                key: key.copy(alloc)?,
                replaces: *replaces,
                kind: kind.copy(alloc)?,
            }),
            Body::Update { node, fields } => Ok(Body::Update {
                node: *node,
                fields: fields.copy(alloc)?,
            }),
            Body::Delete { node } => Ok(Body::Delete { node: *node }),
            Body::DeleteKey { node, key } => Ok(Body::DeleteKey {
                node: *node,
                key: key.copy(alloc)?,
            }),
        }
    }
}

impl Copied for Op {
    fn copy(&self, alloc: Global) -> Result<Op, NoMemory> {
        Ok(Op {
            id: self.id,
            body: self.body.copy(alloc)?,
        })
    }
}

impl Copied for Change {
    fn copy(&self, alloc: Global) -> Result<Change, NoMemory> {
        match self {
            Change::Op(body) => Ok(Change::Op(body.copy(alloc)?)),
            Change::Presence(patch) => Ok(Change::Presence(patch.copy(alloc)?)),
        }
    }
}
