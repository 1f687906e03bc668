//! The two files of a room are read: which of them counts, its snapshot and the bodies of its records.
ghost use Rattle.std.specs.Prelude.{◌≡◌, ◌⊎◌, ◌≤◌, ◌<◌, ◌^◌, ◌+◌, ℕ, length, true, false};
ghost use Rattle.std.specs.Prelude.{IfOk, IfErr, OnOk, IsErr, IfSome, IsNone, nat_lt};
ghost use Rattle.room_disk.specs.Model.{Only, Within};
ghost use Rattle.room_disk.specs.Stops.{Stays, MeetsStop};
ghost use Rattle.room_disk.specs.Causes.{HasCause};
ghost use Rattle.room_journal.specs.Files.{New, number_at, held_in, reading, counted, greater};
ghost use Rattle.room_journal.specs.Found.{IsFound, HasShape, break_at};
ghost use Rattle.room_journal.specs.Causes.{IsFault, HasDiskCause};
ghost use Rattle.room_journal.specs.Appends.{IsClean};

use crate::fault::JournalFault;
use crate::fresh::sync_one;
use crate::heading::{Heading, head_of, number_at};
use crate::journal::Journal;
use crate::records::{piece, read_records};
use room_bytes::Format;
use room_disk::{Disk, DiskFault, Stop};
use room_json::{Bytes, Seq};
use std::alloc::Global;

/// Byte strings in order.
pub type Pieces = Seq<Bytes>;

/// What recovery found.
#[derive(Drop)]
pub struct Found {
    /// The journal, which goes on behind the last record.
    pub journal: Journal,
    /// The file that was read; the first one for a new room.
    pub file: u32,
    /// The format of that file; of a new room the one that is written.
    pub format: Format,
    /// The bytes of the snapshot; None for a new room, whose first file is then made by `renew`.
    pub snapshot: Option<Bytes>,
    /// The bodies of the whole records, in order.
    pub bodies: Pieces,
    /// The offset of the gate where the records stop without a closed gate.
    pub broken: Option<u64>,
}

/// Where the records begin, if the snapshot is whole.
fn records_start(bytes: &[u8]) -> Option<usize>
    ensures some { IfSome result (λ n. (n ≡ 25 + number_at 17 bytes.now) × (n ≤ length bytes.now)) }
    ensures none { IsNone result → length bytes.now < 25 + number_at 17 bytes.now }
{
    if bytes.len() < 25 {
        return None;
    }
    let size = number_at(bytes, 17);
    if size > (bytes.len() - 25) as u64 {
        return None;
    }
    Some(25 + size as usize)
}

fn break_at(broken: bool, end: u64) -> Option<u64>
    ensures { result ≡ break_at broken end }
{
    if broken {
        return Some(end);
    }
    None
}

/// What the file that counts holds.
fn hold(
    alloc: Global,
    base: u32,
    file: u32,
    format: Format,
    generation: u64,
    bytes: &[u8],
) -> Result<Found, JournalFault>
    ensures found { IfOk result (λ found. IsFound base (counted file format generation (held_in bytes.now)) found) }
    ensures fault { IfErr result (λ e. IsFault (counted file format generation (held_in bytes.now)) e) }
{
    let Some(start) = records_start(bytes) else {
        return Err(JournalFault::Damaged(file, 0));
    };
    let snapshot = piece(alloc, &bytes[25..start])?;
    let recs = read_records(alloc, bytes, start)?;
    let journal = Journal::at(base, file, generation, recs.end);
    let broken = break_at(recs.broken, recs.end);
    Ok(Found {
        journal,
        file,
        format,
        snapshot: Some(snapshot),
        bodies: recs.bodies,
        broken,
    })
}

fn new_room(alloc: Global, base: u32) -> Found
    requires { base + 1 < 2 ^ 32 }
    ensures { IsFound base New result }
{
    Found {
        journal: Journal::at(base, base + 1, 0, 0),
        file: base,
        format: Format::Two,
        snapshot: None,
        bodies: Seq::new(alloc),
        broken: None,
    }
}

/// Which of the two files counts, and what it holds.
fn choose(alloc: Global, base: u32, first: &[u8], second: &[u8]) -> Result<Found, JournalFault>
    requires { base + 1 < 2 ^ 32 }
    ensures found { IfOk result (λ found. IsFound base (reading base first.now second.now) found) }
    ensures fault { IfErr result (λ e. IsFault (reading base first.now second.now) e) }
{
    match (head_of(first), head_of(second)) {
        (Heading::Wrong, _) => Err(JournalFault::Damaged(base, 0)),
        (_, Heading::Wrong) => Err(JournalFault::Damaged(base + 1, 0)),
        (Heading::Shut, Heading::Shut) => Ok(new_room(alloc, base)),
        (Heading::Opened(f, g), Heading::Shut) => hold(alloc, base, base, f, g, first),
        (Heading::Shut, Heading::Opened(e, k)) => hold(alloc, base, base + 1, e, k, second),
        (Heading::Opened(f, g), Heading::Opened(e, k)) => {
            if g < k {
                return hold(alloc, base, base + 1, e, k, second);
            }
            if k < g {
                return hold(alloc, base, base, f, g, first);
            }
            Err(JournalFault::Damaged(base + 1, 9))
        }
    }
}

/// A whole file as it reads.
fn read_file<D: Disk>(alloc: Global, disk: &mut D, file: u32) -> Result<Vec<u8>, JournalFault>
    ensures bytes { D.tells ≡ true → IfOk result (λ v. v.items ≡ D.seen disk.old file) }
    ensures fault { IfErr result (λ e. (e ≡ JournalFault.Disk) ⊎ (e ≡ JournalFault.Memory)) }
    ensures stays { D.tells ≡ true
        → Stays D.seen D.moment D.images D.stopped D.leaves disk.old disk.new }
    ensures stop_fails { D.stopped disk.new ≡ true → D.stopped disk.old ≡ false → IsErr result }
    ensures came { D.came disk.old disk.new }
    ensures cause { HasDiskCause D.faults D.inner_faults D.stopped disk.old disk.new result }
{
    let size = disk.len(file)?;
    let mut bytes = Vec::new(alloc);
    bytes.resize(size as usize, 0u8)?;
    disk.read(file, 0, bytes.as_mut_slice())?;
    Ok(bytes)
}

/// Puts both files as they read beyond any stop.
fn sync_both<D: Disk>(disk: &mut D, base: u32) -> Result<(), DiskFault>
    requires { base + 1 < 2 ^ 32 }
    ensures same { D.tells ≡ true → (f : ℕ) → D.seen disk.new f ≡ D.seen disk.old f }
    ensures first { D.tells ≡ true
        → OnOk result (Only (D.seen disk.old base) (D.images disk.new (D.moment disk.new) base)) }
    ensures second { D.tells ≡ true
        → OnOk result (Only (D.seen disk.old (base + 1)) (D.images disk.new (D.moment disk.new) (base + 1))) }
    ensures counted { D.tells ≡ true → OnOk result (D.moment disk.new ≡ D.moment disk.old + 2) }
    ensures most { D.tells ≡ true → D.moment disk.new ≤ D.moment disk.old + 2 }
    ensures within { D.tells ≡ true
        → Within D.moment D.images disk.old disk.new (D.images disk.old (D.moment disk.old)) }
    ensures stop_fails { D.stopped disk.new ≡ true → IsErr result }
    ensures clean { D.tells ≡ true → D.stops ≡ true → D.stopped disk.old ≡ false
        → IsClean D.seen D.leaves disk.old → OnOk result (IsClean D.seen D.leaves disk.new) }
    ensures came { D.came disk.old disk.new }
    ensures cause { HasCause D.may_run_out D.faults D.inner_faults D.stopped disk.old disk.new result }
{
    sync_one(disk, base)?;
    sync_one(disk, base + 1)
}

/// Puts both files as they read beyond any stop, and reads them.
pub fn read_files<D: Disk>(alloc: Global, disk: &mut D, base: u32) -> Result<Found, JournalFault>
    requires { base + 1 < 2 ^ 32 }
    ensures shape { IfOk result (λ found. HasShape base found) }
    ensures found { D.tells ≡ true → IfOk result (λ found. IsFound base
        (reading base (D.seen disk.old base) (D.seen disk.old (base + 1))) found) }
    ensures fault { D.tells ≡ true → IfErr result (λ e. (e ≡ JournalFault.Disk)
        ⊎ IsFault (reading base (D.seen disk.old base) (D.seen disk.old (base + 1))) e) }
    ensures through { D.tells ≡ true → OnOk result
        ((mid : D) × D.came disk.old mid × D.came mid disk.new × (D.moment mid ≡ D.moment disk.old + 2)) }
    ensures same { D.tells ≡ true → (f : ℕ) → D.seen disk.new f ≡ D.seen disk.old f }
    ensures first { D.tells ≡ true
        → OnOk result (Only (D.seen disk.old base) (D.images disk.new (D.moment disk.new) base)) }
    ensures second { D.tells ≡ true
        → OnOk result (Only (D.seen disk.old (base + 1)) (D.images disk.new (D.moment disk.new) (base + 1))) }
    ensures counted { D.tells ≡ true → OnOk result (D.moment disk.new ≡ D.moment disk.old + 2) }
    ensures most { D.tells ≡ true → D.moment disk.new ≤ D.moment disk.old + 2 }
    ensures within { D.tells ≡ true
        → Within D.moment D.images disk.old disk.new (D.images disk.old (D.moment disk.old)) }
    ensures stop_fails { D.stopped disk.new ≡ true → IsErr result }
    ensures clean { D.tells ≡ true → D.stops ≡ true → D.stopped disk.old ≡ false
        → IsClean D.seen D.leaves disk.old → OnOk result (IsClean D.seen D.leaves disk.new) }
    ensures came { D.came disk.old disk.new }
    ensures cause { HasDiskCause D.faults D.inner_faults D.stopped disk.old disk.new result }
{
    sync_both(disk, base)?;
    let first = read_file(alloc, disk, base)?;
    let second = read_file(alloc, disk, base + 1)?;
    choose(alloc, base, first.as_slice(), second.as_slice())
}
