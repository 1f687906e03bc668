//! A tree is stepped by operations that are settled on it.
ghost use Rattle.std.specs.Prelude.{◌≡◌, IfOk, option_map};
ghost use Rattle.room_nodes.specs.Equal.{same_body};
ghost use Rattle.room_nodes.specs.Steps.{settled_body};
ghost use Rattle.room_tree.specs.Settlement.{with_key};
ghost use Rattle.room_replay.specs.Follow.{settled_fold};

use room_apply::step;
use room_ids::{OpId, Pos};
use room_json::NoMemory;
use room_nodes::{Bodies, Body, Op};
use room_tree::{Settled, Tree, settle};
use std::alloc::Global;

/// Whether an operation has that position already.
fn is_at(body: &Body, key: &Pos) -> bool
    ensures { result ≡ same_body (with_key body.now key.now) body.now }
{
    match body {
        Body::SetKey { key: at, .. } => key.text().as_str() == at.as_str(),
        Body::Create { key: at, .. } => key.text().as_str() == at.as_str(),
        Body::Update { .. } => true,
        Body::Delete { .. } => true,
        Body::DeleteKey { .. } => true,
    }
}

/// Whether an operation is settled on a tree.
fn is_settled<T: Tree>(alloc: Global, t: &T, op: &Op) -> Result<bool, NoMemory>
    ensures { IfOk result (λ b. b ≡ same_body (settled_body (T.nodes t.now) op.now.body) op.now.body) }
{
    match settle(alloc, t, op)? {
        Settled::Moved(key) => Ok(is_at(&op.body, &key)),
        Settled::Same | Settled::Void => Ok(true),
    }
}

/// The tree after operations, where each is settled on the tree after those before it.
pub fn settled_steps<T: Tree>(
    alloc: Global,
    t: T,
    id: OpId,
    bodies: Bodies,
) -> Result<Option<T>, NoMemory>
    ensures { IfOk result (λ r. option_map T.nodes r ≡ settled_fold (T.nodes t) bodies) }
{
    let mut t = t;
    for body in bodies.into_vec() {
        let op = Op { id, body };
        if !is_settled(alloc, &t, &op)? {
            return Ok(None);
        }
        drop(step(alloc, &mut t, &op)?);
    }
    Ok(Some(t))
}
