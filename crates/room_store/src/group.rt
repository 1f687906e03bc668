//! A group of entries, with the bytes of its record.
ghost use Rattle.std.specs.Prelude.{◌≡◌, [], length};

use room_bytes::Entries;
use room_json::Bytes;
use std::alloc::Global;
use std::marker::Model;

/// Entries that follow one another, and the bytes of their record behind its gate; none for an empty group.
#[derive(Drop)]
pub struct Group {
    pub(crate) entries: Entries,
    pub(crate) ready: Bytes,
}

impl Model for Group {
    ghost use Rattle.std.specs.Prelude.{map};
    ghost use Rattle.room_bytes.specs.Bounds.{logged};
    ghost use Rattle.room_store.specs.Codes.{grouped_code};
    ghost use Rattle.room_store.specs.Stored.{Grouped};

    ghost Value = { Grouped };

    ghost coded = { grouped_code };

    ghost view = { λ g. record { entries = map logged g.entries; ready = g.ready } };
}

impl Group {
    /// A group without entries.
    pub fn new(alloc: Global) -> Group
        ensures { result.entries ≡ [] }
    {
        Group {
            entries: Entries::new(alloc),
            ready: Bytes::new(alloc),
        }
    }

    /// How many entries it has.
    pub fn count(&self) -> u64
        ensures { result ≡ length self.now.entries }
    {
        self.entries.len()
    }
}
