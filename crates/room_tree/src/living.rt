//! What an operation does once it is settled.
ghost use Rattle.std.specs.Prelude.{◌≡◌, IfOk};
ghost use Rattle.room_nodes.specs.Steps.{settled_body};
ghost use Rattle.room_tree.specs.Settlement.{live_body, with_key};

use crate::settling::{Settled, settle_body};
use crate::tree::Tree;
use room_ids::Pos;
use room_json::{Copied, NoMemory};
use room_nodes::{Body, Op};
use std::alloc::Global;

fn moved(alloc: Global, body: &Body, key: &Pos) -> Result<Body, NoMemory>
    ensures { IfOk result (λ b. b ≡ with_key body.now key.now) }
{
    match body {
        Body::SetKey { node, key: _ } => Ok(Body::SetKey {
            node: *node,
            key: key.text().copy(alloc)?,
        }),
        Body::Create {
            node,
            parent,
            key: _,
            replaces,
            kind,
        } => Ok(Body::Create {
            node: *node,
            parent: *parent,
            key: key.text().copy(alloc)?,
            replaces: *replaces,
            kind: kind.copy(alloc)?,
        }),
        _ => body.copy(alloc),
    }
}

/// What an operation does once it is settled, unless it is void.
pub fn live<T: Tree>(alloc: Global, t: &T, body: &Body) -> Result<Option<Body>, NoMemory>
    ensures { IfOk result (λ b. b ≡ live_body (T.nodes t.now) body.now) }
{
    match settle_body(alloc, t, body)? {
        Settled::Same => Ok(Some(body.copy(alloc)?)),
        Settled::Moved(key) => Ok(Some(moved(alloc, body, &key)?)),
        Settled::Void => Ok(None),
    }
}

/// The operation as it is settled: itself, or with another position.
pub fn settled<T: Tree>(alloc: Global, t: &T, op: &Op) -> Result<Op, NoMemory>
    ensures { IfOk result (λ o. o ≡ record { id = op.now.id; body = settled_body (T.nodes t.now) op.now.body }) }
{
    match live(alloc, t, &op.body)? {
        Some(body) => Ok(Op { id: op.id, body }),
        None => op.copy(alloc),
    }
}
