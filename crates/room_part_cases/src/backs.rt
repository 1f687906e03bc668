//! Cases of `room_back`: what takes operations back that are made on the cases' tree.
use crate::args::{items, value};
use crate::broken::Broken;
use crate::spelling::{items_text, op_of, ops_shown};
use room_apply::step;
use room_back::{reverse, reverse_batch};
use room_ids::{OpId, Stamp};
use room_json::Json;
use room_nodes::{Change, Changes, Op, Ops};
use room_tree::{Tree, copy_of};
use std::alloc::Global;

/// What comes of a case of one operation or of a batch.
pub(crate) fn outcome<T: Tree>(
    alloc: Global,
    t: &T,
    verb: &str,
    rest: &str,
) -> Result<String, Broken> {
    let v = value(alloc, rest)?;
    match verb {
        "of" => of_one(alloc, t, op_of(alloc, &v)?),
        "batch" => of_batch(alloc, t, &ops_of(alloc, &v)?),
        _ => Err(Broken::Verb),
    }
}

fn ops_of(alloc: Global, v: &Json) -> Result<Ops, Broken> {
    let mut ops = Ops::new(alloc);
    for one in items(v)?.as_slice() {
        ops.push(op_of(alloc, one)?)?;
    }
    Ok(ops)
}

/// The operations among changes, each with the id 9:1.
fn made_of(alloc: Global, changes: Changes) -> Result<Ops, Broken> {
    let Some(stamp) = Stamp::new(9, 1) else {
        return Err(Broken::Number);
    };
    let mut ops = Ops::new(alloc);
    for change in changes.into_vec() {
        if let Change::Op(body) = change {
            ops.push(Op {
                id: OpId(stamp),
                body,
            })?;
        }
    }
    Ok(ops)
}

fn do_each<T: Tree>(alloc: Global, t: &mut T, ops: &[Op]) -> Result<(), Broken> {
    for op in ops {
        drop(step(alloc, t, op)?);
    }
    Ok(())
}

/// Whether a tree is as it was once operations were made and taken back.
fn is_back<T: Tree>(alloc: Global, t: &T, there: &[Op], back: &[Op]) -> Result<bool, Broken> {
    let mut copy = copy_of(alloc, t)?;
    do_each(alloc, &mut copy, there)?;
    do_each(alloc, &mut copy, back)?;
    let was = items_text(alloc, t)?;
    let is = items_text(alloc, &copy)?;
    Ok(was.as_str() == is.as_str())
}

/// The operations that take others back, and whether they do.
fn told<T: Tree>(alloc: Global, t: &T, there: &[Op], changes: Changes) -> Result<String, Broken> {
    let back = made_of(alloc, changes)?;
    let text = ops_shown(alloc, back.as_slice())?;
    if is_back(alloc, t, there, back.as_slice())? {
        Ok(text)
    } else {
        Ok(format!(in alloc; "{text}, and not back")?)
    }
}

fn of_one<T: Tree>(alloc: Global, t: &T, op: Op) -> Result<String, Broken> {
    let changes = reverse(alloc, t, &op)?;
    let mut there = Ops::new(alloc);
    there.push(op)?;
    told(alloc, t, there.as_slice(), changes)
}

fn of_batch<T: Tree>(alloc: Global, t: &T, ops: &Ops) -> Result<String, Broken> {
    let copy = copy_of(alloc, t)?;
    let changes = reverse_batch(alloc, copy, ops)?;
    told(alloc, t, ops.as_slice(), changes)
}
