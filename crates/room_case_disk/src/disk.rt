//! A disk in memory that can fail and stop, and counts its calls.
ghost use Rattle.std.specs.Prelude.{◌≡◌, ◌<◌, ◌≤◌, ◌+◌, ◌^◌, [], Ok, true, false, length, IfOk, OnOk, IsErrOf};
ghost use Rattle.room_edge.specs.Causes.{Rose};

use room_disk::{Disk, DiskFault, MemDisk, Stop};
use room_fuse::Fused;
use std::alloc::Global;

/// Files in memory behind a fuse. It tells nothing of its content, so that whoever uses it owes nothing.
#[derive(Drop)]
pub struct CaseDisk {
    inner: Fused<MemDisk>,
    calls: u64,
    changes: u64,
    fails: u64,
    faults: u64,
}

impl CaseDisk {
    /// A disk of empty files, no call of which fails.
    pub fn new(alloc: Global) -> CaseDisk
        ensures { result.faults ≡ 0 }
    {
        CaseDisk {
            inner: Fused::new(alloc, MemDisk::new(alloc, Vec::new(alloc))),
            calls: 0,
            changes: 0,
            fails: 0,
            faults: 0,
        }
    }

    /// How many writes, cuts and syncs there were.
    pub fn changes(&self) -> u64
        ensures { result ≡ self.now.changes }
    {
        self.changes
    }

    /// How often it has failed.
    pub fn faults(&self) -> u64
        ensures { result ≡ self.now.faults }
    {
        self.faults
    }

    /// Lets the call of that number from now on fail, of all calls, and no other.
    pub fn fail(&mut self, number: u64) {
        self.fails = self.calls.saturating_add(number);
    }

    /// Lets no call fail any more.
    pub fn lift(&mut self) {
        self.fails = 0;
    }

    /// Lets the write, cut or sync of that number from now on, at least the first, be the stop.
    pub fn stop(&mut self, number: u64, how: Stop) {
        self.inner.arm(number.max(1), how);
    }

    /// Ends the stop in its way; where none came, what wasn't synced is gone.
    pub fn settle(&mut self) -> Result<(), DiskFault> {
        self.inner.settle()
    }

    /// Counts a call, and fails it where it is to fail.
    fn begin(&mut self) -> Result<(), DiskFault>
        ensures { self.new.faults ≡ self.old.faults }
    {
        self.calls = self.calls.saturating_add(1);
        if self.calls == self.fails {
            return Err(DiskFault::Failed);
        }
        Ok(())
    }

    /// Counts a write, a cut or a sync, and fails it where it is to fail.
    fn begin_change(&mut self) -> Result<(), DiskFault>
        ensures { self.new.faults ≡ self.old.faults }
    {
        self.changes = self.changes.saturating_add(1);
        self.begin()
    }

    /// Counts a call that wasn't done.
    fn count<T>(&mut self, answer: Result<T, DiskFault>) -> Result<T, DiskFault>
        ensures ok { IfOk result (λ x. answer ≡ Ok x) }
        ensures later { self.old.faults ≤ self.new.faults }
        ensures rose { IsErrOf result DiskFault.Failed → Rose self.old.faults self.new.faults }
    {
        if answer.is_err() {
            self.faults = self.faults.saturating_add(1);
        }
        answer
    }

    fn measure(&mut self, file: u32) -> Result<u64, DiskFault>
        ensures bound { IfOk result (λ n. n < 2 ^ 62) }
        ensures faults { self.new.faults ≡ self.old.faults }
    {
        self.begin()?;
        self.inner.len(file)
    }

    fn fill(&mut self, file: u32, at: u64, into: &mut [u8]) -> Result<(), DiskFault>
        ensures { self.new.faults ≡ self.old.faults }
    {
        self.begin()?;
        let len = self.inner.len(file)?;
        if at > len || into.len() as u64 > len - at {
            return Err(DiskFault::Failed);
        }
        self.inner.read(file, at, into)
    }

    fn put(&mut self, file: u32, at: u64, bytes: &[u8]) -> Result<(), DiskFault>
        ensures bound { OnOk result (at + length bytes.now < 2 ^ 62) }
        ensures faults { self.new.faults ≡ self.old.faults }
    {
        self.begin_change()?;
        if at > self.inner.len(file)? {
            return Err(DiskFault::Failed);
        }
        self.inner.write_at(file, at, bytes)
    }

    fn shorten(&mut self, file: u32, len: u64) -> Result<(), DiskFault>
        ensures { self.new.faults ≡ self.old.faults }
    {
        self.begin_change()?;
        if len > self.inner.len(file)? {
            return Err(DiskFault::Failed);
        }
        self.inner.cut(file, len)
    }

    fn flush(&mut self, file: u32) -> Result<(), DiskFault>
        ensures { self.new.faults ≡ self.old.faults }
    {
        self.begin_change()?;
        self.inner.sync(file)
    }
}

impl Disk for CaseDisk {
    ghost use Rattle.std.specs.Prelude.{⊤};
    ghost use Rattle.room_disk.specs.declared.disk.DiskFault.TheVariants.{Memory, Failed};

    ghost tells = { false };

    ghost may_run_out = { true };

    ghost seen = { λ _ _. [] };

    ghost moment = { λ _. 0 };

    ghost images = { λ _ _ _ _. ⊤ };

    ghost faults = { λ d. d.faults };

    ghost inner_faults = { λ d. d.faults };

    ghost stops = { false };

    ghost stopped = { λ _. false };

    ghost leaves = { λ _ _ _. [] };

    ghost came = { λ _ _. ⊤ };

    ghost came_same = { λ _. tt };

    ghost came_then = { λ _ _ _ _ _. tt };

    ghost seen_is_small = { λ _ _ told. cc };

    ghost seen_is_image = { λ _ _ told. tt };

    ghost left_is_image = { λ _ _ _ told. tt };

    fn len(&mut self, file: u32) -> Result<u64, DiskFault> {
        let answer = self.measure(file);
        self.count(answer)
    }

    fn read(&mut self, file: u32, at: u64, into: &mut [u8]) -> Result<(), DiskFault> {
        let answer = self.fill(file, at, into);
        self.count(answer)
    }

    fn write_at(&mut self, file: u32, at: u64, bytes: &[u8]) -> Result<(), DiskFault> {
        let answer = self.put(file, at, bytes);
        self.count(answer)
    }

    fn cut(&mut self, file: u32, len: u64) -> Result<(), DiskFault> {
        let answer = self.shorten(file, len);
        self.count(answer)
    }

    fn sync(&mut self, file: u32) -> Result<(), DiskFault> {
        let answer = self.flush(file);
        self.count(answer)
    }
}
