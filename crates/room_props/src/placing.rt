//! The positions of the items of new lists.
ghost use Rattle.std.specs.Prelude.{◌≡◌, ◌≤◌, length, IfOk, IfErr};
ghost use Rattle.room_ids.specs.Position.{first as first_of};
ghost use Rattle.room_model.specs.Edits.{too_long};
ghost use Rattle.room_model.specs.Init.{positions_in, parts_positions, item_positions};
ghost use Rattle.room_props.specs.Inits.{init_of, parts_in, items_in};
ghost use Rattle.room_props.specs.Weighing.{following as following_of, IsTooLong};

use crate::live::Init;
use room_ids::{Pos, PosFault, after, first};
use room_json::{NoMemory, Text};
use std::alloc::Global;
use std::collections::BTreeMap;

/// The position behind the last item of a new list; the first one where there is none.
pub(crate) fn following(alloc: Global, last: &Option<Pos>) -> Result<Pos, PosFault>
    ensures ok { IfOk result (λ p. p ≡ following_of last.now) }
    ensures short { IfOk result (λ p. length p ≤ 4096) }
    ensures err { IfErr result (IsTooLong (following_of last.now)) }
{
    match last {
        Some(position) => after(alloc, position),
        None => Ok(first(alloc)?),
    }
}

/// The bytes of the first position that is too long.
#[cycle(long)]
pub(crate) fn long_in(alloc: Global, init: &Init) -> Result<Option<u64>, NoMemory>
    ensures { IfOk result (λ o. o ≡ too_long (positions_in (init_of init.now))) }
{
    match init {
        Init::Plain(_) => Ok(None),
        Init::Object(parts) | Init::Map(parts) => long_in_parts(alloc, &parts.entries),
        Init::List(items) => long_in_items(alloc, items.items.as_slice()),
    }
}

#[cycle(long)]
fn long_in_parts(alloc: Global, parts: &BTreeMap<Text, Init>) -> Result<Option<u64>, NoMemory>
    ensures { IfOk result (λ o. o ≡ too_long (parts_positions (parts_in parts.now.entries))) }
{
    for (_name, part) in parts.iter() {
        if let Some(bytes) = long_in(alloc, part)? {
            return Ok(Some(bytes));
        }
    }
    Ok(None)
}

#[cycle(long)]
fn long_in_items(alloc: Global, items: &[Init]) -> Result<Option<u64>, NoMemory>
    ensures { IfOk result (λ o. o ≡ too_long (item_positions first_of (items_in items.now))) }
{
    let mut last = None;
    for item in items {
        let position = match following(alloc, &last) {
            Ok(position) => position,
            Err(PosFault::TooLong(bytes)) => return Ok(Some(bytes)),
            Err(PosFault::Memory) => return Err(NoMemory),
        };
        if let Some(bytes) = long_in(alloc, item)? {
            return Ok(Some(bytes));
        }
        last = Some(position);
    }
    Ok(None)
}
