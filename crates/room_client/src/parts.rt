//! Parts of a state that is still coming.
ghost use Rattle.std.specs.Prelude.{◌≡◌, ◌++◌, ◌∷◌, [], map, IfOk, OnOk};
ghost use Rattle.std.specs.Option.{option_map};
ghost use Rattle.room_json.specs.View.{json_of};
ghost use Rattle.room_items.specs.Items.{tree_in};
ghost use Rattle.room_model.specs.Receive.{other_parts, parts_items};
ghost use Rattle.room_client.specs.Client.{parts_of};

use room_items::read_items;
use room_json::{Items, Json, NoMemory, Seq};
use room_tree::Tree;
use std::alloc::Global;

/// A part of a state: its number of updates, the last clock of the session in it, and its items.
#[derive(Drop)]
pub(crate) struct Kept {
    pub(crate) seq: u64,
    pub(crate) last: u64,
    pub(crate) items: Items,
}

/// Parts of one state, in order.
pub(crate) type Parts = Seq<Kept>;

/// Where a part belongs to another state than those kept: what was kept, and what came.
pub(crate) fn other(parts: &[Kept], seq: u64, last: u64) -> Option<(u64, u64)>
    ensures { result ≡ other_parts (parts_of parts.now) seq last }
{
    match parts {
        [kept, ..] => other_than(kept, seq, last),
        [] => None,
    }
}

fn other_than(kept: &Kept, seq: u64, last: u64) -> Option<(u64, u64)>
    ensures { result ≡ other_parts (parts_of (kept.now ∷ [])) seq last }
{
    if kept.seq != seq {
        Some((kept.seq, seq))
    } else if kept.last != last {
        Some((kept.last, last))
    } else {
        None
    }
}

fn append(alloc: Global, all: &mut Items, items: &[Json]) -> Result<(), NoMemory>
    ensures { OnOk result (all.new ≡ all.old ++ map json_of items.now) }
{
    for item in items {
        all.push(item.copy(alloc)?)?;
    }
    Ok(())
}

/// The items of all parts that are kept, and of the last one.
fn joined(alloc: Global, parts: &[Kept], last: &Items) -> Result<Items, NoMemory>
    ensures { IfOk result (λ items. items ≡ parts_items (parts_of parts.now) ++ last.now) }
{
    let mut all = Items::new(alloc);
    for part in parts {
        append(alloc, &mut all, part.items.as_slice())?;
    }
    append(alloc, &mut all, last.as_slice())?;
    Ok(all)
}

/// The tree of a state whose last part came, where its items are one.
pub(crate) fn tree_of<T: Tree>(
    alloc: Global,
    parts: &[Kept],
    last: &Items,
) -> Result<Option<T>, NoMemory>
    ensures { IfOk result (λ t. option_map T.nodes t ≡ tree_in (parts_items (parts_of parts.now) ++ last.now)) }
{
    let empty = T::empty(alloc)?;
    if parts.is_empty() {
        read_items(alloc, empty, last)
    } else {
        read_items(alloc, empty, &joined(alloc, parts, last)?)
    }
}
