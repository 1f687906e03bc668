//! Operations of cases.
ghost use Rattle.std.specs.Prelude.{IfOk};
ghost use Rattle.room_nodes.specs.Shallow.{AreShallowOps};

use crate::broken::Broken;
use room_ids::{NodeId, OpId, Stamp};
use room_json::Text;
use room_nodes::{Body, Kind, Op, Ops};
use std::alloc::Global;

fn stamp(actor: u32, clock: u64) -> Result<Stamp, Broken> {
    match Stamp::new(actor, clock) {
        Some(stamp) => Ok(stamp),
        None => Err(Broken::Number),
    }
}

/// An operation that makes a map under the root, at a key that spells its clock.
pub(crate) fn makes(alloc: Global, actor: u32, clock: u64) -> Result<Ops, Broken>
    ensures { IfOk result AreShallowOps }
{
    let made = stamp(actor, clock)?;
    let text = format!(in alloc; "{clock}")?;
    let key = Text::from_str(alloc, text.as_str())?;
    let mut ops = Ops::new(alloc);
    ops.push(Op {
        id: OpId(made),
        body: Body::Create {
            node: NodeId::Made(made),
            parent: NodeId::Root,
            key,
            replaces: None,
            kind: Kind::Map,
        },
    })?;
    Ok(ops)
}

/// An operation that removes the node that the actor made at a clock.
pub(crate) fn removes(alloc: Global, actor: u32, clock: u64, node: u64) -> Result<Ops, Broken>
    ensures { IfOk result AreShallowOps }
{
    let mut ops = Ops::new(alloc);
    ops.push(Op {
        id: OpId(stamp(actor, clock)?),
        body: Body::Delete {
            node: NodeId::Made(stamp(actor, node)?),
        },
    })?;
    Ok(ops)
}
