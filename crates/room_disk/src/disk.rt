//! A disk of numbered files, as its callers see it, and what a stop may leave of it.
ghost use Rattle.std.specs.Prelude.{◌≡◌, ◌≤◌, ◌<◌, ◌^◌, ◌+◌, List, ℕ, Bool};
ghost use Rattle.std.specs.Prelude.{true, false, length, take, drop, IfOk, OnOk};
ghost use Rattle.room_disk.specs.declared.disk.DiskFault.TheVariants.{Memory};
ghost use Rattle.room_disk.specs.Model.{written, WrittenInPart, CutInPart, Same, Only, Steps};

use std::alloc::{AllocError, AllocFailed};
use std::error::Error;
use std::fmt;

/// How a stop is settled: without what was held back, with it, or with each of its bytes replaced by 255.
#[derive(Clone, Copy, Debug, PartialEq, Eq)]
pub enum Stop {
    Old,
    New,
    Torn,
}

/// Why a call was not done.
#[derive(Clone, Copy, Debug, PartialEq, Eq)]
pub enum DiskFault {
    /// Out of memory, or past the bound of a file that is held in memory.
    Memory,
    /// The count of faults rose.
    Failed,
}

impl fmt::Display for DiskFault {
    fn fmt<W: fmt::Write>(&self, f: &mut fmt::Formatter<W>) -> fmt::Result {
        match self {
            DiskFault::Memory => f.write_str("out of memory, or past the bound of a file"),
            DiskFault::Failed => f.write_str("the disk failed"),
        }
    }
}

impl Error for DiskFault {}

impl From<AllocError> for DiskFault {
    ghost from_gives = { λ _ e. e ≡ Memory };

    fn from(_e: AllocError) -> DiskFault {
        DiskFault::Memory
    }
}

impl<T: Drop> From<AllocFailed<T>> for DiskFault {
    ghost from_gives = { λ _ e. e ≡ Memory };

    fn from(_e: AllocFailed<T>) -> DiskFault {
        DiskFault::Memory
    }
}

/// Files by number, each empty at first and of fewer than 2^62 bytes. A refused write or cut may have been done whole,
/// in part or not at all.
pub trait Disk {
    ghost use Rattle.room_disk.specs.declared.disk.Stop.{Stop};
    ghost use Rattle.room_disk.specs.Causes.{HasCause};
    ghost use Rattle.room_disk.specs.Stops.{Stays, MeetsStop, Holds, Passes, settled_write, settled_cut};

    /// Whether it tells its content.
    ghost tells: { Bool };

    /// Whether a call may answer `Memory`.
    ghost may_run_out: { Bool };

    /// What a read gives of a file.
    ghost seen: { Self → ℕ → List ℕ };

    /// How many writes, cuts and syncs were counted.
    ghost moment: { Self → ℕ };

    /// What a stop at a moment, up to this one, may leave of a file.
    ghost images: { Self → ℕ → ℕ → List ℕ → Type 0 };

    /// How often it has failed.
    ghost faults: { Self → ℕ };

    /// The same without the calls that it refused behind a stop of its own.
    ghost inner_faults: { Self → ℕ };

    /// Whether it can stop, and holds writes and cuts back until a sync.
    ghost stops: { Bool };

    /// Whether it has stopped.
    ghost stopped: { Self → Bool };

    /// What a stop now leaves of a file once it is settled in this way.
    ghost leaves: { Self → Stop → ℕ → List ℕ };

    /// Whether calls have made the second of the first.
    ghost came: { Self → Self → Type 0 };

    /// The length of a file.
    fn len(&mut self, file: u32) -> Result<u64, DiskFault>
        ensures length { tells ≡ true → IfOk result (λ n. n ≡ length (seen self.old file)) }
        ensures bound { IfOk result (λ n. n < 2 ^ 62) }
        ensures stays { tells ≡ true → Stays seen moment images stopped leaves self.old self.new }
        ensures stop { MeetsStop moment stopped leaves self.old self.new result }
        ensures came { came self.old self.new }
        ensures cause { HasCause may_run_out faults inner_faults stopped self.old self.new result };

    /// Fills the buffer with the bytes that stand there.
    fn read(&mut self, file: u32, at: u64, into: &mut [u8]) -> Result<(), DiskFault>
        requires { tells ≡ true → at + length into.old ≤ length (seen self.old file) }
        ensures bytes { tells ≡ true → OnOk result (into.new ≡ take (length into.old) (drop at (seen self.old file))) }
        ensures stays { tells ≡ true → Stays seen moment images stopped leaves self.old self.new }
        ensures stop { MeetsStop moment stopped leaves self.old self.new result }
        ensures came { came self.old self.new }
        ensures cause { HasCause may_run_out faults inner_faults stopped self.old self.new result };

    /// Writes the bytes there, over what stands there and past the end.
    fn write_at(&mut self, file: u32, at: u64, bytes: &[u8]) -> Result<(), DiskFault>
        requires { tells ≡ true → at ≤ length (seen self.old file) }
        ensures written { tells ≡ true → OnOk result (seen self.new file ≡ written at bytes.now (seen self.old file)) }
        ensures counted { tells ≡ true → OnOk result (moment self.new ≡ moment self.old + 1) }
        ensures steps { tells ≡ true
            → Steps seen moment images file (WrittenInPart at (length bytes.now)) self.old self.new }
        ensures bound { OnOk result (at + length bytes.now < 2 ^ 62) }
        ensures full { tells ≡ true → 2 ^ 62 ≤ at + length bytes.now
            → Stays seen moment images stopped leaves self.old self.new }
        ensures held { tells ≡ true → stops ≡ true
            → Holds stopped leaves file (settled_write at bytes.now) self.old self.new result }
        ensures stop { MeetsStop moment stopped leaves self.old self.new result }
        ensures came { came self.old self.new }
        ensures cause { HasCause may_run_out faults inner_faults stopped self.old self.new result };

    /// Cuts a file to a length.
    fn cut(&mut self, file: u32, len: u64) -> Result<(), DiskFault>
        requires { tells ≡ true → len ≤ length (seen self.old file) }
        ensures cut { tells ≡ true → OnOk result (seen self.new file ≡ take len (seen self.old file)) }
        ensures counted { tells ≡ true → OnOk result (moment self.new ≡ moment self.old + 1) }
        ensures steps { tells ≡ true → Steps seen moment images file (CutInPart len) self.old self.new }
        ensures held { tells ≡ true → stops ≡ true
            → Holds stopped leaves file (settled_cut len) self.old self.new result }
        ensures stop { MeetsStop moment stopped leaves self.old self.new result }
        ensures came { came self.old self.new }
        ensures cause { HasCause may_run_out faults inner_faults stopped self.old self.new result };

    /// Puts what was written and cut of a file beyond any stop: from then on a stop leaves what a read gives.
    fn sync(&mut self, file: u32) -> Result<(), DiskFault>
        ensures durable { tells ≡ true
            → OnOk result (Only (seen self.old file) (images self.new (moment self.new) file)) }
        ensures counted { tells ≡ true → OnOk result (moment self.new ≡ moment self.old + 1) }
        ensures steps { tells ≡ true → Steps seen moment images file Same self.old self.new }
        ensures passed { tells ≡ true → stops ≡ true → Passes seen stopped leaves file self.old self.new result }
        ensures stop { MeetsStop moment stopped leaves self.old self.new result }
        ensures came { came self.old self.new }
        ensures cause { HasCause may_run_out faults inner_faults stopped self.old self.new result };

    ghost came_same: { (a : Self) → came a a };

    ghost came_then: { (a b c : Self) → came a b → came b c → came a c };

    ghost seen_is_small: { (disk : Self) (file : ℕ) → tells ≡ true → length (seen disk file) < 2 ^ 62 };

    ghost seen_is_image: { (disk : Self) (file : ℕ) → tells ≡ true → images disk (moment disk) file (seen disk file) };

    ghost left_is_image: { (disk : Self) (how : Stop) (file : ℕ) → tells ≡ true
        → images disk (moment disk) file (leaves disk how file) };
}
