//! Lists of values with an item more, less or in another place.
ghost use Rattle.std.specs.Prelude.{◌≡◌, ◌<◌, ◌≤◌, ◌++◌, length, map, insert, remove, slice_set};
ghost use Rattle.std.specs.Prelude.{option_map, IfOk, OnOk};
ghost use Rattle.room_json.specs.Value.{list, values_of};
ghost use Rattle.room_json.specs.View.{json_of};
ghost use Rattle.room_model.specs.Notices.{insert_item, move_items, take_item};

use room_json::{Items, Json, NoMemory};
use std::alloc::Global;

/// Appends copies.
fn append(alloc: Global, to: &mut Items, items: &[Json]) -> Result<(), NoMemory>
    ensures { OnOk result (to.new ≡ to.old ++ map json_of items.now) }
{
    for item in items {
        to.push(item.copy(alloc)?)?;
    }
    Ok(())
}

/// A copy of a list with another item in the place of one.
pub(crate) fn with_item(
    alloc: Global,
    items: &Items,
    at: u64,
    value: Json,
) -> Result<Items, NoMemory>
    requires { at < length items.now }
    ensures { IfOk result (λ vs. vs ≡ slice_set items.now at (json_of value)) }
{
    let all = items.as_slice();
    let (front, _) = all.split_at(at as usize);
    let (_, back) = all.split_at(at as usize + 1);
    let mut next = Items::new(alloc);
    append(alloc, &mut next, front)?;
    next.push(value)?;
    append(alloc, &mut next, back)?;
    Ok(next)
}

/// A copy of a list with one more item.
fn with_more(alloc: Global, items: &Items, at: u64, value: Json) -> Result<Items, NoMemory>
    requires { at ≤ length items.now }
    ensures { IfOk result (λ vs. vs ≡ insert items.now at (json_of value)) }
{
    let (front, back) = items.as_slice().split_at(at as usize);
    let mut next = Items::new(alloc);
    append(alloc, &mut next, front)?;
    next.push(value)?;
    append(alloc, &mut next, back)?;
    Ok(next)
}

/// A copy of a list without one of its items.
fn with_less(alloc: Global, items: &Items, at: u64) -> Result<Items, NoMemory>
    requires { at < length items.now }
    ensures { IfOk result (λ vs. vs ≡ remove items.now at) }
{
    let all = items.as_slice();
    let (front, _) = all.split_at(at as usize);
    let (_, back) = all.split_at(at as usize + 1);
    let mut next = Items::new(alloc);
    append(alloc, &mut next, front)?;
    append(alloc, &mut next, back)?;
    Ok(next)
}

/// With an item put in at an index, None where the index isn't there.
#[tactic(auto, using(crate::proofs::Items::insertions))]
pub(crate) fn inserted(
    alloc: Global,
    items: &Items,
    index: u64,
    value: &Json,
) -> Result<Option<Json>, NoMemory>
    ensures { IfOk result (λ o. option_map json_of o
        ≡ insert_item index (json_of value.now) (list (values_of items.now))) }
{
    if index > items.len() {
        return Ok(None);
    }
    let next = with_more(alloc, items, index, value.copy(alloc)?)?;
    Ok(Some(Json::List(next)))
}

/// With an item taken out at an index, None where the index isn't there.
#[tactic(auto, using(crate::proofs::Items::takings))]
pub(crate) fn taken(alloc: Global, items: &Items, index: u64) -> Result<Option<Json>, NoMemory>
    ensures { IfOk result (λ o. option_map json_of o ≡ take_item index (list (values_of items.now))) }
{
    if index >= items.len() {
        return Ok(None);
    }
    Ok(Some(Json::List(with_less(alloc, items, index)?)))
}

/// With an item taken out at one index and put in at another, None where one of them isn't there.
#[tactic(auto, using(crate::proofs::Items::moves))]
pub(crate) fn moved(
    alloc: Global,
    items: &Items,
    from: u64,
    to: u64,
) -> Result<Option<Json>, NoMemory>
    ensures { IfOk result (λ o. option_map json_of o ≡ move_items from to (list (values_of items.now))) }
{
    if from >= items.len() || to >= items.len() {
        return Ok(None);
    }
    let Some(item) = items.get(from) else {
        return Ok(None);
    };
    let rest = with_less(alloc, items, from)?;
    let next = with_more(alloc, &rest, to, item.copy(alloc)?)?;
    Ok(Some(Json::List(next)))
}
