//! The tree that the cases share.
use crate::args::{items, number, value};
use crate::broken::Broken;
use crate::making::{chain, create_last};
use crate::spelling::{items_text, op_of};
use room_apply::step;
use room_items::read_items;
use room_json::Json;
use room_nodes::Op;
use room_tree::{PlainTree, Tree};
use std::alloc::Global;

/// What comes of a case of the tree: items, so many objects, or one more operation.
pub(crate) fn outcome(
    alloc: Global,
    t: &mut PlainTree,
    verb: &str,
    rest: &str,
) -> Result<String, Broken> {
    match verb {
        "items" => taken(alloc, t, &value(alloc, rest)?),
        "chain" => set(alloc, t, chain(alloc, number(rest)?)?),
        "do" => done(alloc, t, &op_of(alloc, &value(alloc, rest)?)?),
        "last" => done(alloc, t, &create_last(alloc, rest)?),
        "show" => showed(alloc, t),
        _ => Err(Broken::Verb),
    }
}

/// The number of nodes of a tree that takes the place of the other.
fn set<T: Tree>(alloc: Global, t: &mut T, next: T) -> Result<String, Broken> {
    *t = next;
    Ok(format!(in alloc; "{} nodes", t.count())?)
}

/// The tree of items takes the place of the other.
fn taken<T: Tree>(alloc: Global, t: &mut T, v: &Json) -> Result<String, Broken> {
    let into = T::empty(alloc)?;
    match read_items(alloc, into, items(v)?)? {
        Some(next) => set(alloc, t, next),
        None => Err(Broken::Tree),
    }
}

/// How many nodes there are once an operation was done.
fn done<T: Tree>(alloc: Global, t: &mut T, op: &Op) -> Result<String, Broken> {
    drop(step(alloc, t, op)?);
    Ok(format!(in alloc; "{} nodes", t.count())?)
}

fn showed<T: Tree>(alloc: Global, t: &T) -> Result<String, Broken> {
    let text = items_text(alloc, t)?;
    Ok(format!(in alloc; "{}", text.as_str())?)
}
