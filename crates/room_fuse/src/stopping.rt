//! A disk that can be told to stop, as its callers see it.
ghost use Rattle.std.specs.Prelude.{◌≡◌, ◌≤◌, ℕ, List, length, true, false, OnOk, OnErr, IsErrOf};
ghost use Rattle.room_edge.specs.Causes.{Rose};
ghost use Rattle.room_disk.specs.Model.{Only, Within};
ghost use Rattle.room_disk.specs.Stops.{Stays};
ghost use Rattle.room_fuse.specs.Mirrors.{Mirrors, CountsDown, IsBare, settled_by};

use room_disk::{Disk, DiskFault, Stop};

/// A disk over an inner one, which is told at which call to stop and how that stop is settled.
pub trait Stopping: Disk {
    ghost use Rattle.room_disk.specs.declared.disk.Stop.{Stop as Way};

    /// What a read of the inner disk gives of a file.
    ghost inner_seen: { Self → ℕ → List ℕ };

    /// The clock of the inner disk.
    ghost inner_moment: { Self → ℕ };

    /// What a stop of the inner disk at a moment may leave of a file.
    ghost inner_images: { Self → ℕ → ℕ → List ℕ → Type 0 };

    /// How many counted calls there are to the stop, itself included; 0 where none is armed.
    ghost armed: { Self → ℕ };

    /// How its stop is settled.
    ghost way: { Self → Way };

    /// How settling it now goes: in its way where it has stopped, and else without what is held back.
    ghost ends: { Self → Way };

    /// Whether settling it now writes to a file.
    ghost writes: { Self → ℕ → Type 0 };

    /// Whether it holds nothing back, isn't armed and hasn't stopped.
    ghost plain: { Self → Type 0 };

    /// Whether calls, armings and settlings have made the second of the first.
    ghost went: { Self → Self → Type 0 };

    /// Lets the call of that number from now on, of the writes, cuts and syncs, be the stop.
    fn arm(&mut self, calls: u64, how: Stop)
        requires { 1 ≤ calls }
        ensures armed { armed self.new ≡ calls }
        ensures way { way self.new ≡ how }
        ensures stays { Stays Self.seen Self.moment Self.images Self.stopped Self.leaves self.old self.new }
        ensures faults { Self.faults self.new ≡ Self.faults self.old }
        ensures inner_faults { Self.inner_faults self.new ≡ Self.inner_faults self.old }
        ensures went { went self.old self.new };

    /// How many counted calls there are to the stop, itself included; 0 where none is armed.
    fn left(&self) -> u64
        ensures { result ≡ armed self.now };

    /// Whether it has stopped.
    fn fired(&self) -> bool
        ensures { result ≡ Self.stopped self.now };

    /// Ends the stop in its way, or, where none came, drops what is held back; and disarms.
    fn settle(&mut self) -> Result<(), DiskFault>
        ensures left { Self.tells ≡ true
            → OnOk result ((f : ℕ) → Self.seen self.new f ≡ Self.leaves self.old (ends self.old) f) }
        ensures plain { OnOk result (plain self.new) }
        // Each file that it wrote to was synced.
        ensures durable { Self.tells ≡ true → OnOk result ((f : ℕ) → writes self.old f
            → Only (Self.seen self.new f) (Self.images self.new (Self.moment self.new) f)) }
        // After an `Err` it can be settled again, to the same end.
        ensures still { OnErr result ((Self.stopped self.new ≡ Self.stopped self.old) × (way self.new ≡ way self.old)) }
        ensures count { OnErr result (armed self.new ≡ armed self.old) }
        ensures again { Self.tells ≡ true → OnErr result ((f : ℕ) → Self.leaves self.new (ends self.new) f
            ≡ Self.leaves self.old (ends self.old) f) }
        // Each image, at each moment within, is one that the stop may leave.
        ensures within { Self.tells ≡ true
            → Within Self.moment Self.images self.old self.new (Self.images self.old (Self.moment self.old)) }
        ensures went { went self.old self.new }
        ensures later { Self.faults self.old ≤ Self.faults self.new }
        ensures inner_later { Self.inner_faults self.old ≤ Self.inner_faults self.new }
        ensures failed { IsErrOf result DiskFault.Failed
            → Rose (Self.inner_faults self.old) (Self.inner_faults self.new) };

    ghost went_same: { (a : Self) → went a a };

    ghost went_then: { (a b c : Self) → went a b → went b c → went a c };

    ghost went_by: { (a b : Self) → Self.came a b → went a b };

    ghost mirrors: { (a b : Self) → Self.tells ≡ true → went a b
        → Mirrors Self.moment Self.images inner_moment inner_images a b };

    ghost inner_is_image: { (d : Self) (f : ℕ) (c : List ℕ) → Self.tells ≡ true
        → inner_images d (inner_moment d) f c → Self.images d (Self.moment d) f c };

    ghost counts: { (a b : Self) → Self.came a b → CountsDown Self.stopped armed Self.moment way a b };

    ghost ends_by: { (d : Self) → ends d ≡ settled_by (Self.stopped d) (way d) };

    ghost plain_is_bare: { (d : Self) → plain d
        → IsBare Self.seen Self.moment Self.images Self.stopped Self.leaves
        inner_seen inner_moment inner_images armed d };
}
