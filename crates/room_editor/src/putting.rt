//! Local operations on an overlay.
ghost use Rattle.std.specs.Prelude.{◌≡◌, ◌≤◌, ◌+◌, ℕ, length, None, OnOk, OnErr};
ghost use Rattle.room_json.specs.Limits.{max_whole};
ghost use Rattle.room_log.specs.Log.{bodies_of, ops_from};
ghost use Rattle.room_overlay.specs.Over.{next_clock as next_clock_of, added_to, sealed};

use room_json::NoMemory;
use room_nodes::{Op, Ops};
use room_overlay::Overlay;
use room_tree::Tree;
use std::alloc::Global;

/// The clock of the last operation, or else another one.
fn last_clock(ops: &[Op], or: u64) -> u64
    requires { or ≤ max_whole }
    ensures clock { (a : ℕ) → ops.now ≡ ops_from a (or + 1) (bodies_of ops.now) → result ≡ or + length ops.now }
    ensures bound { result ≤ max_whole }
{
    match ops.last() {
        Some(op) => op.id.0.clock(),
        None => or,
    }
}

/// The clock of the next operation.
pub(crate) fn next_clock<T: Tree>(over: &Overlay<T>) -> u64
    ensures clock { result ≡ next_clock_of over.now }
    ensures bound { result ≤ 9007199254740992 }
{
    last_clock(over.opened(), over.last_issued()) + 1
}

/// Operations are a batch of their own, which is issued. A refused call changes nothing.
pub(crate) fn issue<T: Tree>(
    alloc: Global,
    over: &mut Overlay<T>,
    ops: &Ops,
) -> Result<(), NoMemory>
    requires next { ops.now ≡ ops_from over.old.actor (next_clock_of over.old) (bodies_of ops.now) }
    requires closed { over.old.batch ≡ None }
    ensures ok { OnOk result (over.new ≡ sealed (added_to over.old (bodies_of ops.now))) }
    ensures err { OnErr result (over.new ≡ over.old) }
{
    over.local(alloc, ops, false)?;
    over.seal();
    Ok(())
}
