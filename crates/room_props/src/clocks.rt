//! The numbers of new nodes and of operations.
ghost use Rattle.std.specs.Prelude.{◌≡◌, ◌+◌, ◌≤◌, length, IfOk, IfErr};
ghost use Rattle.room_log.specs.Log.{ops_from};
ghost use Rattle.room_model.specs.Edits.{spent as spent_of};
ghost use Rattle.room_props.specs.Edits.{IsFaultOf, IsMade, clocks_of};
ghost use Rattle.room_props.specs.Making.{nodes_made};

use crate::editing::{Clocks, EditFault, Made};
use room_ids::{OpId, Stamp};
use room_json::{MAX_WHOLE, NoMemory};
use room_nodes::{Bodies, Op, Ops};
use std::alloc::Global;

/// The last of so many numbers, where it is over the greatest.
pub(crate) fn spent(next: u64, count: u64) -> Result<Option<u64>, NoMemory>
    ensures { IfOk result (λ o. o ≡ spent_of next count) }
{
    if count == 0 {
        return Ok(None);
    }
    let last = next.checked_add(count - 1).ok_or(NoMemory)?;
    if last > MAX_WHOLE {
        Ok(Some(last))
    } else {
        Ok(None)
    }
}

pub(crate) fn stamp(actor: u32, clock: u64) -> Stamp
    requires { clock ≤ 9007199254740991 }
    ensures { result ≡ record { actor = actor; clock = clock } }
{
    match Stamp::new(actor, clock) {
        Some(stamp) => stamp,
        None => unreachable!(),
    }
}

/// Operations with their ids, whose clocks run on from the first.
fn numbered(alloc: Global, actor: u32, first: u64, bodies: Bodies) -> Result<Ops, NoMemory>
    requires { first + length bodies ≤ 9007199254740992 }
    ensures { IfOk result (λ os. os ≡ ops_from actor first bodies) }
{
    let mut ops = Ops::new(alloc);
    let mut clock = first;
    for body in bodies.into_vec() {
        ops.push(Op {
            id: OpId(stamp(actor, clock)),
            body,
        })?;
        clock += 1;
    }
    Ok(ops)
}

/// What operations make with that many new nodes, unless their clocks are spent. Copies nothing.
pub fn finish(alloc: Global, c: &Clocks, nodes: u64, bodies: Bodies) -> Result<Made, EditFault>
    requires op { c.now.op ≤ 9007199254740992 }
    requires nodes { c.now.node + nodes ≤ 9007199254740992 }
    ensures ok { IfOk result (IsMade (nodes_made (clocks_of c.now) nodes bodies)) }
    ensures err { IfErr result (IsFaultOf (nodes_made (clocks_of c.now) nodes bodies)) }
{
    let count = bodies.len();
    if let Some(last) = spent(c.op, count)? {
        return Err(EditFault::ClocksSpent(last));
    }
    let ops = numbered(alloc, c.actor, c.op, bodies)?;
    Ok(Made {
        ops,
        next: Clocks {
            actor: c.actor,
            node: c.node + nodes,
            op: c.op + count,
        },
    })
}
