//! Cases of `room_notice`: what operations change in the view of the cases' tree, and what notices make of a view.
use crate::args::{item, items, number_at, object_at, text_at, value};
use crate::broken::Broken;
use crate::spelling::{op_of, shown};
use room_apply::step;
use room_items::view;
use room_json::{Copied, Json, Names};
use room_nodes::Op;
use room_notice::{Notice, Notices, Path, Step, apply_notices, notices_of, write_notices};
use room_tree::{Tree, copy_of};
use std::alloc::Global;

/// What comes of a case of notices: of an operation, or of a view and notices.
pub(crate) fn outcome<T: Tree>(
    alloc: Global,
    t: &T,
    verb: &str,
    rest: &str,
) -> Result<String, Broken> {
    let v = value(alloc, rest)?;
    match verb {
        "of" => of_op(alloc, t, &op_of(alloc, &v)?),
        "apply" => applied(alloc, &v),
        "write" => written(alloc, &v),
        _ => Err(Broken::Verb),
    }
}

/// What the tree shows once an operation was made on a copy.
fn view_after<T: Tree>(alloc: Global, t: &T, op: &Op) -> Result<Json, Broken> {
    let mut copy = copy_of(alloc, t)?;
    drop(step(alloc, &mut copy, op)?);
    Ok(view(alloc, &copy)?)
}

/// The notices of an operation, what they make of the view, and whether the next tree shows that.
fn of_op<T: Tree>(alloc: Global, t: &T, op: &Op) -> Result<String, Broken> {
    let notices = notices_of(alloc, t, op)?;
    let text = write_notices(alloc, &notices)?;
    let mut told = view(alloc, t)?;
    let all = apply_notices(alloc, &mut told, &notices)?;
    let told = shown(alloc, &told)?;
    let next = shown(alloc, &view_after(alloc, t, op)?)?;
    if all && told == next {
        Ok(format!(in alloc; "{}, then {told}", text.as_str())?)
    } else {
        Ok(format!(in alloc; "{}, then {told}, not {next}", text.as_str())?)
    }
}

/// Whether notices were all applied to a view, and the view then.
fn applied(alloc: Global, v: &Json) -> Result<String, Broken> {
    let mut told = item(v, 0)?.copy(alloc)?;
    let notices = notices(alloc, item(v, 1)?)?;
    let all = apply_notices(alloc, &mut told, &notices)?;
    let told = shown(alloc, &told)?;
    Ok(format!(in alloc; "{all}, then {told}")?)
}

fn written(alloc: Global, v: &Json) -> Result<String, Broken> {
    let text = write_notices(alloc, &notices(alloc, v)?)?;
    Ok(format!(in alloc; "{}", text.as_str())?)
}

// A notice is a list of its kind and its parts in order: `["insert",["l"],2,9]`; `null` is the greatest index.

fn notices(alloc: Global, v: &Json) -> Result<Notices, Broken> {
    let mut all = Notices::new(alloc);
    for one in items(v)?.as_slice() {
        all.push(notice(alloc, one)?)?;
    }
    Ok(all)
}

fn notice(alloc: Global, v: &Json) -> Result<Notice, Broken> {
    let kind = text_at(v, 0)?.as_str();
    match kind {
        "reset" => Ok(Notice::Reset(item(v, 1)?.copy(alloc)?)),
        "fields" => fields(alloc, v),
        "keys" => keys(alloc, v),
        "insert" => insert(alloc, v),
        "take" => take(alloc, v),
        "move" => shift(alloc, v),
        _ => Err(Broken::Notice),
    }
}

fn fields(alloc: Global, v: &Json) -> Result<Notice, Broken> {
    let path = path(alloc, v)?;
    let set = object_at(v, 2)?.copy(alloc)?;
    let unset = names(alloc, item(v, 3)?)?;
    Ok(Notice::Fields { path, set, unset })
}

fn keys(alloc: Global, v: &Json) -> Result<Notice, Broken> {
    let path = path(alloc, v)?;
    let set = object_at(v, 2)?.copy(alloc)?;
    let unset = names(alloc, item(v, 3)?)?;
    Ok(Notice::Keys { path, set, unset })
}

fn insert(alloc: Global, v: &Json) -> Result<Notice, Broken> {
    let path = path(alloc, v)?;
    let index = index(v, 2)?;
    let value = item(v, 3)?.copy(alloc)?;
    Ok(Notice::Insert { path, index, value })
}

fn take(alloc: Global, v: &Json) -> Result<Notice, Broken> {
    let path = path(alloc, v)?;
    let index = index(v, 2)?;
    Ok(Notice::Take { path, index })
}

fn shift(alloc: Global, v: &Json) -> Result<Notice, Broken> {
    let path = path(alloc, v)?;
    let from = index(v, 2)?;
    let to = index(v, 3)?;
    Ok(Notice::Move { path, from, to })
}

fn index(v: &Json, at: u64) -> Result<u64, Broken> {
    match item(v, at)? {
        Json::Null => Ok(u64::MAX),
        _ => number_at(v, at),
    }
}

fn path(alloc: Global, v: &Json) -> Result<Path, Broken> {
    let steps = item(v, 1)?;
    let mut path = Path::new(alloc);
    for at in 0..items(steps)?.len() {
        path.push(path_step(alloc, steps, at)?)?;
    }
    Ok(path)
}

fn path_step(alloc: Global, steps: &Json, at: u64) -> Result<Step, Broken> {
    match item(steps, at)?.as_text() {
        Some(name) => Ok(Step::Key(name.copy(alloc)?)),
        None => Ok(Step::Index(index(steps, at)?)),
    }
}

fn names(alloc: Global, v: &Json) -> Result<Names, Broken> {
    let mut names = Names::new(alloc);
    for at in 0..items(v)?.len() {
        names.push(text_at(v, at)?.copy(alloc)?)?;
    }
    Ok(names)
}
