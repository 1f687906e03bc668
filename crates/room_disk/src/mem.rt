//! A disk in memory, some of whose calls fail.
ghost use Rattle.std.specs.Prelude.{◌≡◌, [], ℕ, List, true, false, length, take};
ghost use Rattle.std.specs.Prelude.{drop, ◌<◌, ◌≤◌, ◌+◌, ◌^◌, IfOk, OnOk, OnErr, IfErr};
ghost use Rattle.room_edge.specs.Memory.{no_calls, is_to_fail};
ghost use Rattle.room_disk.specs.Failing.{lifted, Counts};
ghost use Rattle.room_disk.specs.Model.{written, WrittenInPart, CutInPart, Same};
ghost use Rattle.room_disk.specs.Files.{small_seen};
ghost use Rattle.room_disk.specs.Record.{seen_of, images_of, StepsTo, OnlySeen};
ghost use Rattle.room_disk.specs.Record.{Extends, extends_same, extends_then, seen_may_be_left};

use crate::change::FileChange;
use crate::disk::{Disk, DiskFault};
use crate::failing::Calls;
use crate::medium::Medium;
use std::alloc::Global;

/// Files in memory, and a record of the calls on them. A call that fails does nothing.
#[derive(Drop)]
pub struct MemDisk {
    medium: Medium,
    calls: Calls,
}

impl MemDisk {
    ghost use Rattle.room_disk.specs.MemDisk.{record_of, calls_of};

    /// A disk of empty files; a number k in `fails` lets the k-th call fail, counted from 1.
    pub fn new(alloc: Global, fails: Vec<u64>) -> MemDisk
        ensures empty { (f : ℕ) → ⟦<MemDisk as Disk>⟧.seen result f ≡ [] }
        ensures images { (f : ℕ) (c : List ℕ) → ⟦<MemDisk as Disk>⟧.images result 0 f c → c ≡ [] }
        ensures moment { ⟦<MemDisk as Disk>⟧.moment result ≡ 0 }
        ensures calls { calls_of result ≡ no_calls fails.items }
    {
        MemDisk {
            medium: Medium::new(alloc),
            calls: Calls::new(fails),
        }
    }

    /// From now on no call fails.
    pub fn lift(&mut self)
        ensures calls { calls_of self.new ≡ lifted (calls_of self.old) }
        ensures same { record_of self.new ≡ record_of self.old }
    {
        self.calls.lift();
    }
}

impl Disk for MemDisk {
    ghost use Rattle.room_disk.specs.MemDisk.{record_of, calls_of};

    ghost tells = { true };

    ghost may_run_out = { true };

    ghost seen = { λ d f. seen_of (record_of d) f };

    ghost moment = { λ d. length (record_of d) };

    ghost images = { λ d m f c. images_of (record_of d) m f c };

    ghost faults = { λ d. d.calls.faults };

    ghost inner_faults = { λ d. d.calls.faults };

    ghost stops = { false };

    ghost stopped = { λ d. false };

    ghost leaves = { λ d how f. seen_of (record_of d) f };

    ghost came = { λ a b. Extends (record_of a) (record_of b) };

    ghost came_same = { λ a. extends_same (record_of a) };

    ghost came_then = { λ a b c first second. extends_then (record_of a) (record_of b) (record_of c) first second };

    ghost seen_is_small = { λ d f told.
        small_seen d.medium.files (seen_of (record_of d)) d.medium.kept d.medium.small f };

    ghost seen_is_image = { λ d f told. seen_may_be_left (record_of d) f };

    ghost left_is_image = { λ d how f told. seen_may_be_left (record_of d) f };

    fn len(&mut self, file: u32) -> Result<u64, DiskFault>
        ensures length { IfOk result (λ n. n ≡ length (seen_of (record_of self.old) file)) }
        ensures bound { IfOk result (λ n. n < 2 ^ 62) }
        ensures same { record_of self.new ≡ record_of self.old }
        ensures calls { Counts (calls_of self.old) (calls_of self.new) }
        ensures ok { OnOk result (is_to_fail (calls_of self.old) ≡ false) }
        ensures failed { IfErr result (λ e. e ≡ DiskFault.Failed → is_to_fail (calls_of self.old) ≡ true) }
        ensures sure { IfErr result (λ e. e ≡ DiskFault.Failed) }
    {
        if self.calls.begin() {
            return Err(DiskFault::Failed);
        }
        Ok(self.medium.len(file))
    }

    fn read(&mut self, file: u32, at: u64, into: &mut [u8]) -> Result<(), DiskFault>
        requires { at + length into.old ≤ length (seen_of (record_of self.old) file) }
        ensures bytes { OnOk result (into.new ≡ take (length into.old) (drop at (seen_of (record_of self.old) file))) }
        ensures same { record_of self.new ≡ record_of self.old }
        ensures calls { Counts (calls_of self.old) (calls_of self.new) }
        ensures ok { OnOk result (is_to_fail (calls_of self.old) ≡ false) }
        ensures failed { IfErr result (λ e. e ≡ DiskFault.Failed → is_to_fail (calls_of self.old) ≡ true) }
        ensures sure { IfErr result (λ e. e ≡ DiskFault.Failed) }
    {
        if self.calls.begin() {
            return Err(DiskFault::Failed);
        }
        self.medium.read(file, at, into);
        Ok(())
    }

    fn write_at(&mut self, file: u32, at: u64, bytes: &[u8]) -> Result<(), DiskFault>
        requires { at ≤ length (seen_of (record_of self.old) file) }
        ensures written { OnOk result (seen_of (record_of self.new) file
            ≡ written at bytes.now (seen_of (record_of self.old) file)) }
        ensures counted { OnOk result (length (record_of self.new) ≡ length (record_of self.old) + 1) }
        ensures steps { StepsTo file (WrittenInPart at (length bytes.now)) (record_of self.old) (record_of self.new) }
        ensures bound { OnOk result (at + length bytes.now < 2 ^ 62) }
        ensures full { 2 ^ 62 ≤ at + length bytes.now → record_of self.new ≡ record_of self.old }
        ensures grown { Extends (record_of self.old) (record_of self.new) }
        ensures calls { Counts (calls_of self.old) (calls_of self.new) }
        ensures undone { OnErr result (seen_of (record_of self.new) file ≡ seen_of (record_of self.old) file) }
        ensures noted { at + length bytes.now < 2 ^ 62 → IfErr result (λ e. e ≡ DiskFault.Failed
            → length (record_of self.new) ≡ length (record_of self.old) + 1) }
        ensures ok { OnOk result (is_to_fail (calls_of self.old) ≡ false) }
        ensures failed { IfErr result (λ e. e ≡ DiskFault.Failed → is_to_fail (calls_of self.old) ≡ true) }
    {
        if self.calls.begin() {
            self.medium.refuse_write(file, at, bytes)?;
            return Err(DiskFault::Failed);
        }
        self.medium.write(file, at, bytes)
    }

    fn cut(&mut self, file: u32, len: u64) -> Result<(), DiskFault>
        requires { len ≤ length (seen_of (record_of self.old) file) }
        ensures cut { OnOk result (seen_of (record_of self.new) file ≡ take len (seen_of (record_of self.old) file)) }
        ensures counted { OnOk result (length (record_of self.new) ≡ length (record_of self.old) + 1) }
        ensures steps { StepsTo file (CutInPart len) (record_of self.old) (record_of self.new) }
        ensures grown { Extends (record_of self.old) (record_of self.new) }
        ensures calls { Counts (calls_of self.old) (calls_of self.new) }
        ensures undone { OnErr result (seen_of (record_of self.new) file ≡ seen_of (record_of self.old) file) }
        ensures noted { IfErr result (λ e. e ≡ DiskFault.Failed
            → length (record_of self.new) ≡ length (record_of self.old) + 1) }
        ensures ok { OnOk result (is_to_fail (calls_of self.old) ≡ false) }
        ensures failed { IfErr result (λ e. e ≡ DiskFault.Failed → is_to_fail (calls_of self.old) ≡ true) }
    {
        if self.calls.begin() {
            self.medium.refuse(file, FileChange::Cut(len))?;
            return Err(DiskFault::Failed);
        }
        self.medium.change(file, FileChange::Cut(len))
    }

    fn sync(&mut self, file: u32) -> Result<(), DiskFault>
        ensures durable { OnOk result (OnlySeen (record_of self.old) (record_of self.new) file) }
        ensures counted { OnOk result (length (record_of self.new) ≡ length (record_of self.old) + 1) }
        ensures steps { StepsTo file Same (record_of self.old) (record_of self.new) }
        ensures grown { Extends (record_of self.old) (record_of self.new) }
        ensures calls { Counts (calls_of self.old) (calls_of self.new) }
        ensures undone { OnErr result (record_of self.new ≡ record_of self.old) }
        ensures ok { OnOk result (is_to_fail (calls_of self.old) ≡ false) }
        ensures failed { IfErr result (λ e. e ≡ DiskFault.Failed → is_to_fail (calls_of self.old) ≡ true) }
    {
        if self.calls.begin() {
            return Err(DiskFault::Failed);
        }
        self.medium.sync(file)
    }
}
