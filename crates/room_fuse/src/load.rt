//! A file as it reads through what is held back of it.
ghost use Rattle.std.specs.Prelude.{◌≡◌, ◌≤◌, ◌<◌, ◌+◌, ◌^◌, ℕ, List, length, take};
ghost use Rattle.std.specs.Prelude.{drop, reverse, OnOk, OnErr, IfOk, IfErr, IsTrue, true};
ghost use Rattle.room_disk.specs.Causes.{HasCause};
ghost use Rattle.room_disk.specs.Stops.{Stays};
ghost use Rattle.room_fuse.specs.Held.{applied, StaysBelow, Others};
ghost use Rattle.room_fuse.specs.Past.{through};

use crate::held::Held;
use crate::pass::index_of;
use room_disk::{Disk, DiskFault};
use std::alloc::Global;

/// Whether nothing of a file is held back.
fn is_spared(held: &[Held], file: u32) -> bool
    ensures { IsTrue result → Others file held.now }
{
    index_of(held, file) == held.len()
}

/// Copies what stands there, if so much does.
fn copy_part(bytes: &[u8], at: u64, into: &mut [u8])
    ensures { at + length into.old ≤ length bytes.now → into.new ≡ take (length into.old) (drop at bytes.now) }
{
    let at = at as usize;
    if at <= bytes.len() && into.len() <= bytes.len() - at {
        into.copy_from_slice(&bytes[at..at + into.len()]);
    }
}

fn apply_all(bytes: &mut Vec<u8>, held: &[Held], file: u32) -> Result<(), DiskFault>
    ensures ok { OnOk result (bytes.new.items ≡ applied bytes.old.items file held.now) }
    ensures cause { IfErr result (λ e. e ≡ DiskFault.Memory) }
{
    for call in held {
        if call.file == file {
            call.change.apply(bytes)?;
        }
    }
    Ok(())
}

fn length_after(len: u64, held: &[Held], file: u32) -> u64
    requires { StaysBelow held.now }
    ensures length { (old : List ℕ) → length old ≡ len → result ≡ length (applied old file held.now) }
    ensures bound { len < 2 ^ 62 → result < 2 ^ 62 }
{
    let mut length = len;
    for call in held {
        if call.file == file {
            length = call.change.length_after(length);
        }
    }
    length
}

/// A file of a disk, whole.
fn whole<D: Disk>(alloc: Global, disk: &mut D, file: u32) -> Result<Vec<u8>, DiskFault>
    ensures bytes { D.tells ≡ true → IfOk result (λ v. v.items ≡ D.seen disk.old file) }
    ensures stays { D.tells ≡ true → Stays D.seen D.moment D.images D.stopped D.leaves disk.old disk.new }
    ensures came { D.came disk.old disk.new }
    ensures cause { HasCause true D.faults D.inner_faults D.stopped disk.old disk.new result }
{
    let len = disk.len(file)?;
    let mut bytes = Vec::new(alloc);
    bytes.resize(len as usize, 0)?;
    disk.read(file, 0, bytes.as_mut_slice())?;
    Ok(bytes)
}

/// The bytes of a file with what is held back of it.
fn load<D: Disk>(
    alloc: Global,
    disk: &mut D,
    held: &[Held],
    file: u32,
) -> Result<Vec<u8>, DiskFault>
    ensures bytes { D.tells ≡ true → IfOk result (λ v. v.items ≡ through D.seen disk.old held.now file) }
    ensures stays { D.tells ≡ true → Stays D.seen D.moment D.images D.stopped D.leaves disk.old disk.new }
    ensures came { D.came disk.old disk.new }
    ensures cause { HasCause true D.faults D.inner_faults D.stopped disk.old disk.new result }
{
    let mut bytes = whole(alloc, disk, file)?;
    apply_all(&mut bytes, held, file)?;
    Ok(bytes)
}

/// The length of a file with what is held back of it.
pub(crate) fn length_of<D: Disk>(disk: &mut D, held: &[Held], file: u32) -> Result<u64, DiskFault>
    requires { StaysBelow held.now }
    ensures length { D.tells ≡ true → IfOk result (λ n. n ≡ length (through D.seen disk.old held.now file)) }
    ensures bound { IfOk result (λ n. n < 2 ^ 62) }
    ensures stays { D.tells ≡ true → Stays D.seen D.moment D.images D.stopped D.leaves disk.old disk.new }
    ensures came { D.came disk.old disk.new }
    ensures cause { HasCause true D.faults D.inner_faults D.stopped disk.old disk.new result }
{
    let len = disk.len(file)?;
    Ok(length_after(len, held, file))
}

/// Fills the buffer from a file with what is held back of it.
pub(crate) fn read_over<D: Disk>(
    alloc: Global,
    disk: &mut D,
    held: &[Held],
    file: u32,
    at: u64,
    into: &mut [u8],
) -> Result<(), DiskFault>
    requires { D.tells ≡ true → at + length into.old ≤ length (through D.seen disk.old held.now file) }
    ensures bytes { D.tells ≡ true
        → OnOk result (into.new ≡ take (length into.old) (drop at (through D.seen disk.old held.now file))) }
    ensures stays { D.tells ≡ true → Stays D.seen D.moment D.images D.stopped D.leaves disk.old disk.new }
    ensures came { D.came disk.old disk.new }
    ensures cause { HasCause true D.faults D.inner_faults D.stopped disk.old disk.new result }
{
    if is_spared(held, file) {
        return disk.read(file, at, into);
    }
    let bytes = load(alloc, disk, held, file)?;
    copy_part(bytes.as_slice(), at, into);
    Ok(())
}
