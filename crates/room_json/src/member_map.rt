//! Calls of the members of an object.
ghost use Rattle.std.specs.Prelude.{◌≡◌, [], length, slice_get, option_map, IfOk, OnOk, OnErr};
ghost use Rattle.std.specs.Option.{option_copied};
ghost use Rattle.std.specs.BTreeMap.{insert_entry, is_at};
ghost use Rattle.std.specs.Map.{lookup, remove_entry, keys_of};
ghost use Rattle.std.specs.List.Sorted.{IsStrictlySortedBy};
ghost use Rattle.std.specs.Cmp.Lexicographic.{slice_cmp};
ghost use Rattle.std.specs.Ordering.{nat_cmp};
ghost use Rattle.room_json.specs.View.{json_of, members_view, entry_at};

use crate::memory::NoMemory;
use crate::sound::Sound;
use crate::tree::{Json, Members};
use crate::utf8::Text;
use std::alloc::Global;
use std::cmp::Ordering;
use std::collections::BTreeMap;

#[tactic(auto, using(crate::proofs::Views::views))]
impl Members {
    /// No members.
    pub fn new(alloc: Global) -> Members
        ensures { result ≡ [] }
    {
        Members {
            entries: BTreeMap::new(alloc),
        }
    }

    /// The members by name, in order.
    pub fn as_map(&self) -> &BTreeMap<Text, Json>
        ensures { members_view result.now.entries ≡ self.now }
    {
        &self.entries
    }

    /// How many members there are; their names are distinct and in byte order.
    pub fn len(&self) -> u64
        ensures count { result ≡ length self.now }
        ensures ordered { IsStrictlySortedBy (slice_cmp nat_cmp) (keys_of self.now) }
    {
        self.entries.len() as u64
    }

    /// The name and the value at an index.
    pub fn get(&self, i: u64) -> Option<(&Text, &Json)>
        ensures { option_map (λ p. (p.0.now, json_of p.1.now)) result ≡ slice_get self.now i }
    {
        nth_entry(&self.entries, i)
    }

    /// The value of a name.
    pub fn get_str(&self, name: &str) -> Option<&Json>
        ensures { option_map json_of (option_copied result) ≡ lookup (is_at (slice_cmp nat_cmp name.now)) self.now }
    {
        find_by(&self.entries, name)
    }

    /// The value of a name.
    pub fn find(&self, name: &Text) -> Option<&Json>
        ensures { option_map json_of (option_copied result) ≡ lookup (is_at (slice_cmp nat_cmp name.now)) self.now }
    {
        self.entries.get(name)
    }

    /// Sets the value of a name, and answers the one that it had. A refused call changes nothing.
    pub fn set(&mut self, name: Text, value: Json) -> Result<Option<Json>, NoMemory>
        ensures ok { OnOk result (self.new ≡ insert_entry (slice_cmp nat_cmp) self.old name (json_of value)) }
        ensures old { IfOk result (λ o. option_map json_of o ≡ lookup (is_at (slice_cmp nat_cmp name)) self.old) }
        ensures err { OnErr result (self.new ≡ self.old) }
    {
        name.sound();
        value.sound();
        Ok(self.entries.insert(name, value)?)
    }

    /// Removes a name, and answers the value that it had.
    pub fn remove(&mut self, name: &Text) -> Option<Json>
        ensures value { option_map json_of result ≡ lookup (is_at (slice_cmp nat_cmp name.now)) self.old }
        ensures rest { self.new ≡ remove_entry (is_at (slice_cmp nat_cmp name.now)) self.old }
    {
        self.entries.remove(name)
    }
}

/// By a name that is no `Text`, so by a walk.
fn find_by<'a>(entries: &'a BTreeMap<Text, Json>, name: &str) -> Option<&'a Json>
    ensures { option_map json_of (option_copied result) ≡ entry_at name.now entries.now.entries }
{
    for (key, item) in entries.iter() {
        if name.cmp(key.as_str()) == Ordering::Equal {
            return Some(item);
        }
    }
    None
}

fn nth_entry(entries: &BTreeMap<Text, Json>, at: u64) -> Option<(&Text, &Json)>
    ensures { option_map (λ p. (p.0.now, json_of p.1.now)) result ≡ slice_get (members_view entries.now.entries) at }
{
    let mut left = at;
    for (name, item) in entries.iter() {
        if left == 0 {
            return Some((name, item));
        }
        left -= 1;
    }
    None
}
