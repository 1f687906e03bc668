//! Members changed by a patch.
ghost use Rattle.std.specs.Prelude.{◌≡◌, IfOk, OnOk, OnErr};
ghost use Rattle.room_json.specs.Value.{merged};
ghost use Rattle.room_json.specs.View.{members_view};

use crate::lists::Copied;
use crate::memory::NoMemory;
use crate::tree::{Json, Members};
use crate::utf8::Text;
use std::alloc::Global;
use std::collections::BTreeMap;

/// Replaces top-level names by those of a patch, all or none.
pub fn merge(alloc: Global, into: &mut Members, patch: &Members) -> Result<(), NoMemory>
    ensures ok { OnOk result (into.new ≡ merged into.old patch.now) }
    ensures err { OnErr result (into.new ≡ into.old) }
{
    let next = with_entries(alloc, into.copy(alloc)?, &patch.entries)?;
    *into = next;
    Ok(())
}

fn with_entries(
    alloc: Global,
    mut members: Members,
    patch: &BTreeMap<Text, Json>,
) -> Result<Members, NoMemory>
    ensures { IfOk result (λ m. m ≡ merged members (members_view patch.now.entries)) }
{
    for (name, item) in patch.iter() {
        drop(members.set(name.copy(alloc)?, item.copy(alloc)?)?);
    }
    Ok(members)
}
