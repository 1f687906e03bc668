//! Calls of parts and of lists of live values.
ghost use Rattle.std.specs.Prelude.{◌≡◌, ◌++◌, [], ◌∷◌, length, slice_get, map, option_map, IfOk, OnOk, OnErr};
ghost use Rattle.std.specs.Option.{option_copied};
ghost use Rattle.std.specs.BTreeMap.{insert_entry, is_at};
ghost use Rattle.std.specs.Map.{lookup};
ghost use Rattle.std.specs.Cmp.Lexicographic.{slice_cmp};
ghost use Rattle.std.specs.Ordering.{nat_cmp};
ghost use Rattle.room_props.specs.Inits.{init_of, named};

use crate::live::{Init, Inits, Parts};
use room_json::{NoMemory, Sound, Text};
use std::alloc::Global;
use std::collections::BTreeMap;

#[tactic(auto, using(crate::proofs::Views::views))]
impl Parts {
    /// No parts.
    pub fn new(alloc: Global) -> Parts
        ensures { result ≡ [] }
    {
        Parts {
            entries: BTreeMap::new(alloc),
        }
    }

    /// The parts by name, in byte order.
    pub fn as_map(&self) -> &BTreeMap<Text, Init>
        ensures { named result.now.entries ≡ self.now }
    {
        &self.entries
    }

    /// How many parts there are.
    pub fn len(&self) -> u64
        ensures { result ≡ length self.now }
    {
        self.entries.len() as u64
    }

    /// The part of a name.
    pub fn find(&self, name: &Text) -> Option<&Init>
        ensures { option_map init_of (option_copied result) ≡ lookup (is_at (slice_cmp nat_cmp name.now)) self.now }
    {
        self.entries.get(name)
    }

    /// Sets the part of a name, and answers the one that it had. A refused call changes nothing.
    pub fn set(&mut self, name: Text, part: Init) -> Result<Option<Init>, NoMemory>
        ensures ok { OnOk result (self.new ≡ insert_entry (slice_cmp nat_cmp) self.old name (init_of part)) }
        ensures old { IfOk result (λ o. option_map init_of o ≡ lookup (is_at (slice_cmp nat_cmp name)) self.old) }
        ensures err { OnErr result (self.new ≡ self.old) }
    {
        name.sound();
        part.sound();
        Ok(self.entries.insert(name, part)?)
    }
}

#[tactic(auto, using(crate::proofs::Views::views))]
impl Inits {
    /// The empty list.
    pub fn new(alloc: Global) -> Inits
        ensures { result ≡ [] }
    {
        Inits {
            items: Vec::new(alloc),
        }
    }

    /// Appends an item. A refused call changes nothing.
    pub fn push(&mut self, item: Init) -> Result<(), NoMemory>
        ensures ok { OnOk result (self.new ≡ self.old ++ init_of item ∷ []) }
        ensures err { OnErr result (self.new ≡ self.old) }
    {
        item.sound();
        self.items.push(item)?;
        Ok(())
    }

    /// How many items there are.
    pub fn len(&self) -> u64
        ensures { result ≡ length self.now }
    {
        self.items.len() as u64
    }

    /// The item at an index.
    pub fn get(&self, i: u64) -> Option<&Init>
        ensures { option_map init_of (option_copied result) ≡ slice_get self.now i }
    {
        self.items.get(i as usize)
    }

    /// The items in order.
    pub fn as_slice(&self) -> &[Init]
        ensures { map init_of result.now ≡ self.now }
    {
        self.items.as_slice()
    }
}
