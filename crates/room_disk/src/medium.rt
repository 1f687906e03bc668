//! Files in memory, with a record of the calls on them from which contracts see what a stop leaves.
ghost use Rattle.std.specs.Prelude.{◌≡◌, ◌≤◌, ◌<◌, ◌+◌, ◌^◌, ◌++◌, ◌∷◌, [], ℕ};
ghost use Rattle.std.specs.Prelude.{length, take, drop, reverse, OnOk, OnErr, IfErr, vec_len, vec_capacity};
ghost use Rattle.room_disk.specs.Model.{written, WrittenInPart, Same};
ghost use Rattle.room_disk.specs.Changes.{changed, ChangedInPart, place, reach};
ghost use Rattle.room_disk.specs.Files.{content_in, small_prop};
ghost use Rattle.room_disk.specs.Record.{content_of, seen_of, StepsTo, OnlySeen, Extends};

use crate::change::{FileChange, is_past_bound};
use crate::disk::DiskFault;
use crate::files::{Files, bytes_of, change_file};
use std::alloc::Global;

/// What a call did.
#[derive(Drop)]
pub(crate) enum Act {
    Done(FileChange),
    Refused(FileChange),
    Synced,
}

/// A call on a file.
#[derive(Drop)]
pub(crate) struct Entry {
    pub(crate) file: u32,
    pub(crate) act: Act,
}

#[derive(Drop)]
pub(crate) struct Medium {
    alloc: Global,
    pub(crate) files: Files,
    pub(crate) entries: Vec<Entry>,
    ghost kept: { content_in files ≡ content_of (reverse entries.items) },
    ghost small: { (f : ℕ) → length (content_in files f) < 2 ^ 62 } by { small_prop files },
}

fn add(entries: &mut Vec<Entry>, file: u32, act: Act)
    requires { vec_len entries.old < vec_capacity entries.old }
    ensures { entries.new.items ≡ entries.old.items ++ record { file = file; act = act } ∷ [] }
{
    entries.push(Entry { file, act }).unwrap();
}

fn copy_part(bytes: &[u8], at: usize, into: &mut [u8])
    requires { at + length into.old ≤ length bytes.now }
    ensures { into.new ≡ take (length into.old) (drop at bytes.now) }
{
    into.copy_from_slice(&bytes[at..at + into.len()]);
}

impl Medium {
    pub(crate) fn new(alloc: Global) -> Medium
        ensures { result.entries.items ≡ [] }
    {
        Medium {
            alloc,
            files: Files::new(alloc),
            entries: Vec::new(alloc),
        }
    }

    fn bytes(&self, file: u32) -> &[u8]
        ensures { result.now ≡ seen_of self.now.entries.items file }
    {
        bytes_of(&self.files, file)
    }

    pub(crate) fn len(&self, file: u32) -> u64
        ensures length { result ≡ length (seen_of self.now.entries.items file) }
        ensures bound { result < 2 ^ 62 }
    {
        self.bytes(file).len() as u64
    }

    pub(crate) fn read(&self, file: u32, at: u64, into: &mut [u8])
        requires { at + length into.old ≤ length (seen_of self.now.entries.items file) }
        ensures { into.new ≡ take (length into.old) (drop at (seen_of self.now.entries.items file)) }
    {
        copy_part(self.bytes(file), at as usize, into);
    }

    /// Changes a file. A refused call changes nothing.
    pub(crate) fn change(&mut self, file: u32, change: FileChange) -> Result<(), DiskFault>
        requires place { place change ≤ length (seen_of self.old.entries.items file) }
        requires reach { reach change < 2 ^ 62 }
        ensures done { OnOk result (seen_of self.new.entries.items file
            ≡ changed change (seen_of self.old.entries.items file)) }
        ensures counted { OnOk result (length self.new.entries.items ≡ length self.old.entries.items + 1) }
        ensures steps { StepsTo file (ChangedInPart change) self.old.entries.items self.new.entries.items }
        ensures grown { Extends self.old.entries.items self.new.entries.items }
        ensures err { OnErr result (self.new.entries.items ≡ self.old.entries.items) }
        ensures cause { IfErr result (λ e. e ≡ DiskFault.Memory) }
    {
        self.entries.reserve(1)?;
        change_file(self.alloc, &mut self.files, file, &change)?;
        add(&mut self.entries, file, Act::Done(change));
        Ok(())
    }

    /// Notes a change that was not made.
    pub(crate) fn refuse(&mut self, file: u32, change: FileChange) -> Result<(), DiskFault>
        ensures same { seen_of self.new.entries.items file ≡ seen_of self.old.entries.items file }
        ensures counted { OnOk result (length self.new.entries.items ≡ length self.old.entries.items + 1) }
        ensures steps { StepsTo file (ChangedInPart change) self.old.entries.items self.new.entries.items }
        ensures grown { Extends self.old.entries.items self.new.entries.items }
        ensures cause { IfErr result (λ e. e ≡ DiskFault.Memory) }
    {
        self.entries.reserve(1)?;
        add(&mut self.entries, file, Act::Refused(change));
        Ok(())
    }

    pub(crate) fn sync(&mut self, file: u32) -> Result<(), DiskFault>
        ensures durable { OnOk result (OnlySeen self.old.entries.items self.new.entries.items file) }
        ensures counted { OnOk result (length self.new.entries.items ≡ length self.old.entries.items + 1) }
        ensures steps { StepsTo file Same self.old.entries.items self.new.entries.items }
        ensures grown { Extends self.old.entries.items self.new.entries.items }
        ensures err { OnErr result (self.new.entries.items ≡ self.old.entries.items) }
        ensures cause { IfErr result (λ e. e ≡ DiskFault.Memory) }
    {
        self.entries.reserve(1)?;
        add(&mut self.entries, file, Act::Synced);
        Ok(())
    }

    pub(crate) fn write(&mut self, file: u32, at: u64, bytes: &[u8]) -> Result<(), DiskFault>
        requires { at ≤ length (seen_of self.old.entries.items file) }
        ensures done { OnOk result (seen_of self.new.entries.items file
            ≡ written at bytes.now (seen_of self.old.entries.items file)) }
        ensures counted { OnOk result (length self.new.entries.items ≡ length self.old.entries.items + 1) }
        ensures steps { StepsTo file (WrittenInPart at (length bytes.now))
            self.old.entries.items self.new.entries.items }
        ensures bound { OnOk result (at + length bytes.now < 2 ^ 62) }
        ensures full { 2 ^ 62 ≤ at + length bytes.now → self.new.entries ≡ self.old.entries }
        ensures grown { Extends self.old.entries.items self.new.entries.items }
        ensures err { OnErr result (self.new.entries.items ≡ self.old.entries.items) }
        ensures cause { IfErr result (λ e. e ≡ DiskFault.Memory) }
    {
        if is_past_bound(at, bytes) {
            return Err(DiskFault::Memory);
        }
        let change = FileChange::writing(self.alloc, at, bytes)?;
        self.change(file, change)
    }

    /// Notes a write that was not made; one past the bound changes nothing in any case.
    pub(crate) fn refuse_write(&mut self, file: u32, at: u64, bytes: &[u8]) -> Result<(), DiskFault>
        ensures same { seen_of self.new.entries.items file ≡ seen_of self.old.entries.items file }
        ensures counted { at + length bytes.now < 2 ^ 62
            → OnOk result (length self.new.entries.items ≡ length self.old.entries.items + 1) }
        ensures steps { StepsTo file (WrittenInPart at (length bytes.now))
            self.old.entries.items self.new.entries.items }
        ensures full { 2 ^ 62 ≤ at + length bytes.now → self.new.entries ≡ self.old.entries }
        ensures grown { Extends self.old.entries.items self.new.entries.items }
        ensures cause { IfErr result (λ e. e ≡ DiskFault.Memory) }
    {
        if is_past_bound(at, bytes) {
            return Ok(());
        }
        let change = FileChange::writing(self.alloc, at, bytes)?;
        self.refuse(file, change)
    }
}
