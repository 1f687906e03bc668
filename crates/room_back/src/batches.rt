//! What takes a batch back.
ghost use Rattle.std.specs.Prelude.{◌≡◌, OnOk, IfOk};
ghost use Rattle.room_log.specs.Log.{bodies_of};
ghost use Rattle.room_model.specs.Calls.{changes_back};
ghost use Rattle.room_back.specs.Back.{LeadsBack, last_first};

use crate::reversing::reverse;
use room_apply::step;
use room_json::{NoMemory, Seq, Sound};
use room_nodes::{Change, Changes, Op, Ops};
use room_tree::Tree;
use std::alloc::Global;

/// What takes each operation back, on the tree before it.
fn reversals<T: Tree>(alloc: Global, t: &mut T, ops: &[Op]) -> Result<Vec<Changes>, NoMemory>
    ensures { IfOk result (λ v. last_first v.items ≡ changes_back (T.nodes t.old) (bodies_of ops.now)) }
{
    let mut each = Vec::new(alloc);
    for op in ops {
        each.push(reverse(alloc, t, op)?)?;
        drop(step(alloc, t, op)?);
    }
    Ok(each)
}

/// Joins lists, the last one first.
fn join_last_first(alloc: Global, each: Vec<Changes>) -> Result<Changes, NoMemory>
    ensures { IfOk result (λ c. c ≡ last_first each.items) }
{
    let mut each = each;
    let mut all: Vec<Change> = Vec::new(alloc);
    while let Some(back) = each.pop() {
        let mut changes = back.into_vec();
        all.append(&mut changes)?;
    }
    Ok(Seq::from_vec(all))
}

/// What takes a batch back: each operation's reversal on the tree before it, the last operation's first. Uses up the
/// tree on which the batch is made. Fails only where memory runs out.
pub fn reverse_batch<T: Tree>(alloc: Global, t: T, ops: &Ops) -> Result<Changes, NoMemory>
    ensures changes { IfOk result (λ c. c ≡ changes_back (T.nodes t) (bodies_of ops.now)) }
    ensures back { IfOk result (λ c. LeadsBack (T.nodes t) (bodies_of ops.now) c) }
{
    ops.sound();
    let mut t = t;
    let each = reversals(alloc, &mut t, ops.as_slice())?;
    join_last_first(alloc, each)
}
