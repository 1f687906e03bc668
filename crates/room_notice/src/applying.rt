//! What notices make of a view.
ghost use Rattle.std.specs.Prelude.{◌≡◌, option_map, IfOk, OnErr};
ghost use Rattle.room_json.specs.View.{json_of};
ghost use Rattle.room_model.specs.Notices.{applied as applied_of, apply_all, at_path as at_path_of};
ghost use Rattle.room_model.specs.Notices.{set_names, without_names};
ghost use Rattle.room_notice.specs.Notices.{change_of, notice_of, notices_in, places_of};

use crate::lists::{inserted, moved, taken};
use crate::places::{step_into, step_out};
use crate::shapes::{Notice, Notices, Step};
use room_json::{Copied, Json, Members, NoMemory, Text, merge};
use std::alloc::Global;

fn remove_names(members: &mut Members, names: &[Text])
    ensures { members.new ≡ without_names names.now members.old }
{
    for name in names {
        drop(members.remove(name));
    }
}

/// With names that are set, and then names that go; None where there is no object.
#[tactic(auto, using(room_json::proofs::Values::list_laws))]
fn with_names(
    alloc: Global,
    v: &Json,
    set: &Members,
    unset: &[Text],
) -> Result<Option<Json>, NoMemory>
    ensures { IfOk result (λ o. option_map json_of o ≡ set_names set.now unset.now (json_of v.now)) }
{
    let Some(members) = v.as_object() else {
        return Ok(None);
    };
    let mut next = members.copy(alloc)?;
    merge(alloc, &mut next, set)?;
    remove_names(&mut next, unset);
    Ok(Some(Json::Object(next)))
}

/// What a notice makes of what stands at its path.
#[tactic(auto, using(room_json::proofs::Values::list_laws))]
fn changed(alloc: Global, notice: &Notice, v: &Json) -> Result<Option<Json>, NoMemory>
    ensures { IfOk result (λ o. option_map json_of o ≡ change_of (notice_of notice.now) (json_of v.now)) }
{
    match (notice, v) {
        (
            Notice::Fields {
                path: _,
                set,
                unset,
            },
            _,
        ) => with_names(alloc, v, set, unset.as_slice()),
        (
            Notice::Keys {
                path: _,
                set,
                unset,
            },
            _,
        ) => with_names(alloc, v, set, unset.as_slice()),
        (
            Notice::Insert {
                path: _,
                index,
                value,
            },
            Json::List(items),
        ) => inserted(alloc, items, *index, value),
        (Notice::Take { path: _, index }, Json::List(items)) => taken(alloc, items, *index),
        (Notice::Move { path: _, from, to }, Json::List(items)) => moved(alloc, items, *from, *to),
        (Notice::Reset(view), _) => Ok(Some(view.copy(alloc)?)),
        _ => Ok(None),
    }
}

/// What a notice makes of what stands at the end of a path, and with it of the whole.
fn at_path(
    alloc: Global,
    path: &[Step],
    notice: &Notice,
    v: &Json,
) -> Result<Option<Json>, NoMemory>
    ensures { IfOk result (λ o. option_map json_of o
        ≡ at_path_of (places_of path.now) (change_of (notice_of notice.now)) (json_of v.now)) }
{
    let Some((step, rest)) = path.split_first() else {
        return changed(alloc, notice, v);
    };
    let Some(inner) = step_into(step, v) else {
        return Ok(None);
    };
    match at_path(alloc, rest, notice, inner)? {
        Some(next) => Ok(Some(step_out(alloc, step, v, next)?)),
        None => Ok(None),
    }
}

/// What a notice makes of a view, None where its path or an index isn't there.
fn applied(alloc: Global, notice: &Notice, v: &Json) -> Result<Option<Json>, NoMemory>
    ensures { IfOk result (λ o. option_map json_of o ≡ applied_of (notice_of notice.now) (json_of v.now)) }
{
    match notice {
        Notice::Fields {
            path,
            set: _,
            unset: _,
        } => at_path(alloc, path.as_slice(), notice, v),
        Notice::Keys {
            path,
            set: _,
            unset: _,
        } => at_path(alloc, path.as_slice(), notice, v),
        Notice::Insert {
            path,
            index: _,
            value: _,
        } => at_path(alloc, path.as_slice(), notice, v),
        Notice::Take { path, index: _ } => at_path(alloc, path.as_slice(), notice, v),
        Notice::Move {
            path,
            from: _,
            to: _,
        } => at_path(alloc, path.as_slice(), notice, v),
        Notice::Reset(_) => changed(alloc, notice, v),
    }
}

fn apply_each(alloc: Global, view: &Json, notices: &[Notice]) -> Result<(Json, bool), NoMemory>
    ensures { IfOk result (λ r. (json_of r.0, r.1) ≡ apply_all (notices_in notices.now) (json_of view.now)) }
{
    let mut shown = view.copy(alloc)?;
    for notice in notices {
        match applied(alloc, notice, &shown)? {
            Some(next) => shown = next,
            None => return Ok((shown, false)),
        }
    }
    Ok((shown, true))
}

/// Applies notices in order, up to the first whose path or index isn't there; whether all were applied. Where memory
/// runs out nothing is applied.
pub fn apply_notices(alloc: Global, view: &mut Json, notices: &Notices) -> Result<bool, NoMemory>
    ensures ok { IfOk result (λ all. (json_of view.new, all) ≡ apply_all (notices_in notices.now) (json_of view.old)) }
    ensures err { OnErr result (view.new ≡ view.old) }
{
    let (shown, all) = apply_each(alloc, view, notices.as_slice())?;
    *view = shown;
    Ok(all)
}
