//! Cases of `room_tree`, `room_items` and `room_apply`: a tree, which the cases share, and steps of it.
use crate::listing::listing;
use crate::making::{chain, create_last};
use crate::wide::wide;
use room_apply::{back, forth, step};
use room_case_text::{Broken, items, node, number, op_of, shown, value};
use room_items::{read_items, view, view_of, write_items};
use room_json::{Json, write};
use room_nodes::Op;
use room_tree::{PlainTree, Settled, Tree, copy_of, live, settle, settled};
use std::alloc::Global;

/// What comes of a case of trees.
pub(crate) fn outcome(
    alloc: Global,
    t: &mut PlainTree,
    verb: &str,
    rest: &str,
) -> Result<String, Broken> {
    match verb {
        "items" => taken(alloc, t, &value(alloc, rest)?),
        "chain" => set(alloc, t, chain(alloc, number(rest)?)?),
        "list" => listing(alloc, t),
        "view" => viewed(alloc, t, rest),
        "wide" => wide(alloc, number(rest)?),
        _ => operation(alloc, t, verb, rest),
    }
}

/// What comes of a case of one operation.
fn operation<T: Tree>(alloc: Global, t: &mut T, verb: &str, rest: &str) -> Result<String, Broken> {
    let op = if verb == "last" {
        create_last(alloc, rest)?
    } else {
        op_of(alloc, &value(alloc, rest)?)?
    };
    match verb {
        "settle" => becomes(alloc, t, &op),
        "do" | "last" => done(alloc, t, &op),
        "step" => stepped(alloc, t, &op),
        "counts" => counts(alloc, t, &op),
        _ => Err(Broken::Verb),
    }
}

/// The number of nodes of a tree that takes the place of the other.
fn set<T: Tree>(alloc: Global, t: &mut T, next: T) -> Result<String, Broken> {
    let copy = copy_of(alloc, &next)?;
    *t = next;
    Ok(format!(in alloc; "{} nodes", copy.count())?)
}

/// The tree of items takes the place of the other. What is written of it are those items.
fn taken<T: Tree>(alloc: Global, t: &mut T, v: &Json) -> Result<String, Broken> {
    let into = T::empty(alloc)?;
    let Some(next) = read_items(alloc, into, items(v)?)? else {
        return Ok(format!(in alloc; "refused")?);
    };
    let written = write(alloc, &Json::List(write_items(alloc, &next)?))?;
    if written.as_str() != write(alloc, v)?.as_str() {
        return Ok(format!(in alloc; "written as {}", written.as_str())?);
    }
    set(alloc, t, next)
}

/// What a tree shows, or one of its nodes; `-` where there is none.
fn viewed<T: Tree>(alloc: Global, t: &T, id: &str) -> Result<String, Broken> {
    if id.is_empty() {
        return shown(alloc, &view(alloc, t)?);
    }
    match view_of(alloc, t, &node(id)?)? {
        Some(json) => shown(alloc, &json),
        None => Ok(format!(in alloc; "-")?),
    }
}

fn answer(alloc: Global, settled: Settled) -> Result<String, Broken> {
    match settled {
        Settled::Same => Ok(format!(in alloc; "the same")?),
        Settled::Moved(pos) => Ok(format!(in alloc; "at {}", pos.text().as_str())?),
        Settled::Void => Ok(format!(in alloc; "void")?),
    }
}

/// What becomes of an operation, what becomes of the settled one, and whether it does anything.
fn becomes<T: Tree>(alloc: Global, t: &T, op: &Op) -> Result<String, Broken> {
    let once = answer(alloc, settle(alloc, t, op)?)?;
    let twice = answer(alloc, settle(alloc, t, &settled(alloc, t, op)?)?)?;
    let lives = live(alloc, t, &op.body)?.is_some();
    Ok(format!(in alloc; "{once}, then {twice}; lives: {lives}")?)
}

/// What becomes of an operation, and how many nodes there are once it was done.
fn done<T: Tree>(alloc: Global, t: &mut T, op: &Op) -> Result<String, Broken> {
    let found = answer(alloc, settle(alloc, t, op)?)?;
    drop(step(alloc, t, op)?);
    Ok(format!(in alloc; "{found}; {} nodes", t.count())?)
}

/// The listings after a step, after `back` and after `forth`; at the end it goes back.
fn there_and_back<T: Tree>(
    alloc: Global,
    t: &mut T,
    op: &Op,
) -> Result<(String, String, String), Broken> {
    let mut edits = step(alloc, t, op)?;
    let after = listing(alloc, t)?;
    back(t, &mut edits);
    let before = listing(alloc, t)?;
    forth(t, &mut edits);
    let again = listing(alloc, t)?;
    back(t, &mut edits);
    Ok((after, before, again))
}

/// What a step makes of the tree, which it leaves as it was.
fn stepped<T: Tree>(alloc: Global, t: &mut T, op: &Op) -> Result<String, Broken> {
    let start = listing(alloc, t)?;
    let is_void = live(alloc, t, &op.body)?.is_none();
    let (after, before, again) = there_and_back(alloc, t, op)?;
    let end = listing(alloc, t)?;
    if before != start || again != after || end != start {
        return Ok(format!(in alloc; "back: {before} forth: {again} back: {end}")?);
    }
    if is_void && after == start {
        return Ok(format!(in alloc; "void")?);
    }
    Ok(after)
}

/// How many nodes there are after a step, after `back`, and after `forth`; at the end it goes back.
fn counts<T: Tree>(alloc: Global, t: &mut T, op: &Op) -> Result<String, Broken> {
    let mut edits = step(alloc, t, op)?;
    let after = t.count();
    back(t, &mut edits);
    let before = t.count();
    forth(t, &mut edits);
    let again = t.count();
    back(t, &mut edits);
    Ok(format!(in alloc; "{after}, {before}, {again}")?)
}
