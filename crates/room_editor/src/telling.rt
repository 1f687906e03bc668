//! What operations change in the view, and what takes them back.
ghost use Rattle.std.specs.Prelude.{◌≡◌, ◌++◌, IfOk, OnOk};
ghost use Rattle.room_items.specs.View.{view as view_of};
ghost use Rattle.room_json.specs.View.{json_of};
ghost use Rattle.room_nodes.specs.Steps.{fold};
ghost use Rattle.room_log.specs.Log.{bodies_of};
ghost use Rattle.room_model.specs.Calls.{changes_back};
ghost use Rattle.room_model.specs.Notices.{notices_of_all};
ghost use Rattle.room_notice.specs.Notices.{notices_in};

use room_apply::step;
use room_back::{reverse, reverse_batch};
use room_items::view;
use room_json::{Json, NoMemory, Seq};
use room_nodes::{Changes, Op, Ops};
use room_notice::{Notices, notices_of};
use room_tree::{Tree, copy_of};
use std::alloc::Global;

/// Puts notices behind others.
fn append(alloc: Global, notices: &mut Notices, more: Notices) -> Result<(), NoMemory>
    ensures { OnOk result (notices.new ≡ notices.old ++ more) }
{
    let mut more = more.into_vec();
    let mut all = std::mem::replace(notices, Seq::new(alloc)).into_vec();
    all.append(&mut more)?;
    *notices = Seq::from_vec(all);
    Ok(())
}

fn notices_of_each<T: Tree>(alloc: Global, t: &mut T, ops: &[Op]) -> Result<Notices, NoMemory>
    ensures { IfOk result (λ ns. notices_in ns ≡ notices_of_all (T.nodes t.old) (bodies_of ops.now)) }
{
    let mut notices = Notices::new(alloc);
    for op in ops {
        append(alloc, &mut notices, notices_of(alloc, t, op)?)?;
        drop(step(alloc, t, op)?);
    }
    Ok(notices)
}

/// What operations change in the view of a tree. Copies the tree where there are several.
pub(crate) fn told<T: Tree>(alloc: Global, t: &T, ops: &[Op]) -> Result<Notices, NoMemory>
    ensures { IfOk result (λ ns. notices_in ns ≡ notices_of_all (T.nodes t.now) (bodies_of ops.now)) }
{
    if ops.is_empty() {
        return Ok(Notices::new(alloc));
    }
    if ops.len() == 1 {
        return notices_of(alloc, t, &ops[0]);
    }
    let mut copy = copy_of(alloc, t)?;
    notices_of_each(alloc, &mut copy, ops)
}

/// What takes operations back, the newest first. Copies the tree where there are several.
pub(crate) fn taking_back<T: Tree>(alloc: Global, t: &T, ops: &Ops) -> Result<Changes, NoMemory>
    ensures { IfOk result (λ cs. cs ≡ changes_back (T.nodes t.now) (bodies_of ops.now)) }
{
    let all = ops.as_slice();
    if all.len() == 1 {
        return reverse(alloc, t, &all[0]);
    }
    reverse_batch(alloc, copy_of(alloc, t)?, ops)
}

fn stepped<T: Tree>(alloc: Global, t: &mut T, ops: &[Op]) -> Result<(), NoMemory>
    ensures { OnOk result (T.nodes t.new ≡ fold (T.nodes t.old) (bodies_of ops.now)) }
{
    for op in ops {
        drop(step(alloc, t, op)?);
    }
    Ok(())
}

/// The view of a tree after operations, and then others. Copies the tree where there is one.
pub(crate) fn view_after<T: Tree>(
    alloc: Global,
    t: &T,
    ops: &[Op],
    rest: &[Op],
) -> Result<Json, NoMemory>
    ensures { IfOk result (λ v. json_of v
        ≡ view_of (fold (fold (T.nodes t.now) (bodies_of ops.now)) (bodies_of rest.now))) }
{
    if ops.is_empty() && rest.is_empty() {
        return view(alloc, t);
    }
    let mut copy = copy_of(alloc, t)?;
    stepped(alloc, &mut copy, ops)?;
    stepped(alloc, &mut copy, rest)?;
    view(alloc, &copy)
}
