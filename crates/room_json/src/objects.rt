//! Members of objects by literal names, and numbers as values.
ghost use Rattle.std.specs.Prelude.{◌≡◌, ◌≤◌, pos, option_map, OnOk, OnErr};
ghost use Rattle.std.specs.BTreeMap.{insert_entry};
ghost use Rattle.std.specs.Cmp.Lexicographic.{slice_cmp};
ghost use Rattle.std.specs.Option.{option_copied};
ghost use Rattle.std.specs.Ordering.{nat_cmp};
ghost use Rattle.room_json.specs.Fields.{field_of};
ghost use Rattle.room_json.specs.Limits.{max_whole};
ghost use Rattle.room_json.specs.View.{json_of};

use crate::memory::NoMemory;
use crate::numbers::Whole;
use crate::tree::{Json, Members};
use crate::utf8::Text;
use std::alloc::Global;

/// The member of an object by its name; a value that is no object has none.
pub fn field<'a>(v: &'a Json, name: &str) -> Option<&'a Json>
    ensures { option_map json_of (option_copied result) ≡ field_of name.now (json_of v.now) }
{
    v.as_object()?.get_str(name)
}

/// Sets the value of a name; what it had is dropped.
pub fn put(alloc: Global, members: &mut Members, name: &str, value: Json) -> Result<(), NoMemory>
    ensures ok { OnOk result (members.new ≡ insert_entry (slice_cmp nat_cmp) members.old name.now (json_of value)) }
    ensures err { OnErr result (members.new ≡ members.old) }
{
    let name = Text::from_str(alloc, name)?;
    drop(members.set(name, value)?);
    Ok(())
}

/// The whole number of a `u32`.
pub fn whole(number: u32) -> Whole
    ensures { result ≡ pos number }
{
    match Whole::new(i64::from(number)) {
        Some(whole) => whole,
        None => unreachable!(),
    }
}

/// The whole number of a `u64` of the profile.
pub fn whole_u64(number: u64) -> Whole
    requires { number ≤ max_whole }
    ensures { result ≡ pos number }
{
    match Whole::new(number as i64) {
        Some(whole) => whole,
        None => unreachable!(),
    }
}
