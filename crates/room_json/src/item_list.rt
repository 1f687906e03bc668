//! Calls of a list of values.
ghost use Rattle.std.specs.Prelude.{◌≡◌, ◌++◌, [], ◌∷◌, length, slice_get, map, option_map, OnOk, OnErr};
ghost use Rattle.std.specs.Option.{option_copied};

use crate::memory::NoMemory;
use crate::sound::Sound;
use crate::tree::{Items, Json};
use std::alloc::Global;

#[tactic(auto, using(crate::proofs::Views::views))]
impl Items {
    ghost use Rattle.room_json.specs.View.{json_of};

    /// The empty list.
    pub fn new(alloc: Global) -> Items
        ensures { result ≡ [] }
    {
        Items {
            items: Vec::new(alloc),
        }
    }

    /// Appends a value.
    pub fn push(&mut self, item: Json) -> Result<(), NoMemory>
        ensures ok { OnOk result (self.new ≡ self.old ++ json_of item ∷ []) }
        ensures err { OnErr result (self.new ≡ self.old) }
    {
        item.sound();
        self.items.push(item)?;
        Ok(())
    }

    /// How many values there are.
    pub fn len(&self) -> u64
        ensures { result ≡ length self.now }
    {
        self.items.len() as u64
    }

    /// The value at an index.
    pub fn get(&self, i: u64) -> Option<&Json>
        ensures { option_map json_of (option_copied result) ≡ slice_get self.now i }
    {
        sqlite_items::at(self.items.as_slice(), i as usize)
    }

    /// The values in order.
    pub fn as_slice(&self) -> &[Json]
        ensures { map json_of result.now ≡ self.now }
    {
        self.items.as_slice()
    }
}
