//! A write that no stop undoes once it has returned, by two calls at most.
ghost use Rattle.std.specs.Prelude.{◌≡◌, ◌+◌, ◌≤◌, ◌<◌, ◌^◌, ℕ, length, OnOk, IsErrOf, true, false};
ghost use Rattle.room_disk.specs.Model.{written, WrittenInPart, Only, Follows, OnFile, Within};
ghost use Rattle.room_disk.specs.Causes.{HasCause};
ghost use Rattle.room_disk.specs.Stops.{Settles, settled_write};

use room_disk::{Disk, DiskFault, Stop};

/// Writes the bytes there, and syncs the file. However it ends, it makes no third call.
pub fn put_down<D: Disk>(disk: &mut D, file: u32, at: u64, bytes: &[u8]) -> Result<(), DiskFault>
    requires { D.tells ≡ true → at ≤ length (D.seen disk.old file) }
    ensures bound { OnOk result (at + length bytes.now < 2 ^ 62) }
    ensures written { D.tells ≡ true
        → OnOk result (D.seen disk.new file ≡ written at bytes.now (D.seen disk.old file)) }
    ensures others { D.tells ≡ true → (f : ℕ) → (f ≡ file → ⊥) → D.seen disk.new f ≡ D.seen disk.old f }
    ensures durable { D.tells ≡ true
        → OnOk result (Only (D.seen disk.new file) (D.images disk.new (D.moment disk.new) file)) }
    ensures counted { D.tells ≡ true → OnOk result (D.moment disk.new ≡ D.moment disk.old + 2) }
    ensures most { D.tells ≡ true → D.moment disk.new ≤ D.moment disk.old + 2 }
    ensures within { D.tells ≡ true → Within D.moment D.images disk.old disk.new
        (OnFile file (Follows (WrittenInPart at (length bytes.now)) (D.images disk.old (D.moment disk.old) file))
        (D.images disk.old (D.moment disk.old))) }
    // Where one of the two calls is the stop, it leaves the write held back.
    ensures at_stop { D.tells ≡ true → D.stops ≡ true → D.stopped disk.old ≡ false → D.stopped disk.new ≡ true
        → Settles file (settled_write at bytes.now) (D.leaves disk.old) (D.leaves disk.new) }
    ensures stop_counted { D.tells ≡ true → D.stopped disk.old ≡ false → D.stopped disk.new ≡ true
        → (D.moment disk.old < D.moment disk.new) × (D.moment disk.new ≤ D.moment disk.old + 2) }
    ensures stop_fails { D.stopped disk.new ≡ true → IsErrOf result DiskFault.Failed }
    ensures passed { D.tells ≡ true → D.stops ≡ true
        → OnOk result ((how : Stop) → D.leaves disk.new how file ≡ D.seen disk.new file) }
    ensures left { D.tells ≡ true → D.stops ≡ true → D.stopped disk.old ≡ false
        → OnOk result ((how : Stop) (f : ℕ) → (f ≡ file → ⊥) → D.leaves disk.new how f ≡ D.leaves disk.old how f) }
    ensures came { D.came disk.old disk.new }
    ensures cause { HasCause D.may_run_out D.faults D.inner_faults D.stopped disk.old disk.new result }
{
    disk.write_at(file, at, bytes)?;
    disk.sync(file)
}
