//! Writes and cuts that are held back.
ghost use Rattle.std.specs.Prelude.{◌≡◌};
ghost use Rattle.room_disk.specs.Stops.{torn_bytes};
ghost use Rattle.room_fuse.specs.Held.{torn_change, torn, ready};

use room_disk::{FileChange, Stop};
use room_json::Bytes;
use std::alloc::Global;
use std::mem;

/// A change that is held back of a file.
#[derive(Drop)]
pub struct Held {
    pub file: u32,
    pub change: FileChange,
}

fn tear_bytes(bytes: &mut [u8])
    ensures { bytes.new ≡ torn_bytes bytes.old }
{
    for i in 0..bytes.len() {
        bytes[i] = 255;
    }
}

fn tear(alloc: Global, change: &mut FileChange)
    ensures { change.new ≡ torn_change change.old }
{
    match change {
        FileChange::Write(_, bytes) => {
            let mut torn = mem::replace(bytes, Bytes::new(alloc)).into_vec();
            tear_bytes(torn.as_mut_slice());
            *bytes = Bytes::from_vec(torn);
        }
        FileChange::Cut(_) => (),
    }
}

fn tear_all(alloc: Global, calls: &mut [Held])
    ensures { calls.new ≡ torn calls.old }
{
    for i in 0..calls.len() {
        tear(alloc, &mut calls[i].change);
    }
}

/// Makes the calls those that settling writes through.
pub(crate) fn make_ready(alloc: Global, calls: &mut Vec<Held>, how: Stop)
    ensures { calls.new.items ≡ ready how calls.old.items }
{
    match how {
        Stop::Old => calls.clear(),
        Stop::New => (),
        Stop::Torn => tear_all(alloc, calls.as_mut_slice()),
    }
}
