//! A file is made anew: its gate is closed, the rest is written, and the gate is opened, each beyond any stop before
//! the next.
ghost use Rattle.std.specs.Prelude.{◌≡◌, ◌+◌, ◌≤◌, ◌∷◌, ◌++◌, ◌↔◌, ℕ, length, drop};
ghost use Rattle.std.specs.Prelude.{OnOk, IfOk, IsErr, true, false, IsTrue};
ghost use Rattle.room_disk.specs.Model.{Only, OnFile, Within};
ghost use Rattle.room_disk.specs.Stops.{Stays};
ghost use Rattle.room_disk.specs.Causes.{HasCause};
ghost use Rattle.room_journal.specs.Appends.{IsClean};
ghost use Rattle.room_journal.specs.Fresh.{IsShutting, IsFreshening};

use crate::down::put_down;
use room_disk::{Disk, DiskFault};

/// Whether the gate is there and closed.
fn is_shut<D: Disk>(disk: &mut D, file: u32) -> Result<bool, DiskFault>
    ensures shut { D.tells ≡ true
        → IfOk result (λ b. IsTrue b ↔ (D.seen disk.old file ≡ 0 ∷ drop 1 (D.seen disk.old file))) }
    ensures stays { D.tells ≡ true → Stays D.seen D.moment D.images D.stopped D.leaves disk.old disk.new }
    ensures came { D.came disk.old disk.new }
    ensures cause { HasCause D.may_run_out D.faults D.inner_faults D.stopped disk.old disk.new result }
{
    if disk.len(file)? == 0 {
        return Ok(false);
    }
    let mut gate = [1u8; 1];
    disk.read(file, 0, &mut gate)?;
    Ok(gate[0] == 0)
}

/// Closes the gate. A write of a closed gate could leave any byte, so none is made where it is closed.
fn shut<D: Disk>(disk: &mut D, file: u32) -> Result<(), DiskFault>
    ensures closed { D.tells ≡ true → OnOk result (D.seen disk.new file ≡ 0 ∷ drop 1 (D.seen disk.old file)) }
    ensures durable { D.tells ≡ true
        → OnOk result (Only (D.seen disk.new file) (D.images disk.new (D.moment disk.new) file)) }
    ensures counted { D.tells ≡ true → OnOk result (D.moment disk.new ≡ D.moment disk.old + 2) }
    ensures most { D.tells ≡ true → D.moment disk.new ≤ D.moment disk.old + 2 }
    ensures others { D.tells ≡ true → (f : ℕ) → (f ≡ file → ⊥) → D.seen disk.new f ≡ D.seen disk.old f }
    ensures within { D.tells ≡ true → Within D.moment D.images disk.old disk.new
        (OnFile file (IsShutting (D.seen disk.old file) (D.images disk.old (D.moment disk.old) file))
        (D.images disk.old (D.moment disk.old))) }
    ensures stop_fails { D.stopped disk.new ≡ true → IsErr result }
    ensures clean { D.tells ≡ true → D.stops ≡ true → D.stopped disk.old ≡ false
        → IsClean D.seen D.leaves disk.old → OnOk result (IsClean D.seen D.leaves disk.new) }
    ensures came { D.came disk.old disk.new }
    ensures cause { HasCause D.may_run_out D.faults D.inner_faults D.stopped disk.old disk.new result }
{
    if is_shut(disk, file)? {
        sync_twice(disk, file)
    } else {
        put_down(disk, file, 0, &[0])
    }
}

/// Puts the file as it reads beyond any stop.
pub fn sync_one<D: Disk>(disk: &mut D, file: u32) -> Result<(), DiskFault>
    ensures same { D.tells ≡ true → (f : ℕ) → D.seen disk.new f ≡ D.seen disk.old f }
    ensures durable { D.tells ≡ true
        → OnOk result (Only (D.seen disk.new file) (D.images disk.new (D.moment disk.new) file)) }
    ensures counted { D.tells ≡ true → OnOk result (D.moment disk.new ≡ D.moment disk.old + 1) }
    ensures most { D.tells ≡ true → D.moment disk.new ≤ D.moment disk.old + 1 }
    ensures within { D.tells ≡ true → Within D.moment D.images disk.old disk.new
        (D.images disk.old (D.moment disk.old)) }
    ensures stop_fails { D.stopped disk.new ≡ true → IsErr result }
    ensures clean { D.tells ≡ true → D.stops ≡ true → D.stopped disk.old ≡ false
        → IsClean D.seen D.leaves disk.old → OnOk result (IsClean D.seen D.leaves disk.new) }
    ensures came { D.came disk.old disk.new }
    ensures cause { HasCause D.may_run_out D.faults D.inner_faults D.stopped disk.old disk.new result }
{
    disk.sync(file)
}

/// Puts the file as it reads beyond any stop, by two calls.
pub fn sync_twice<D: Disk>(disk: &mut D, file: u32) -> Result<(), DiskFault>
    ensures same { D.tells ≡ true → (f : ℕ) → D.seen disk.new f ≡ D.seen disk.old f }
    ensures durable { D.tells ≡ true
        → OnOk result (Only (D.seen disk.new file) (D.images disk.new (D.moment disk.new) file)) }
    ensures counted { D.tells ≡ true → OnOk result (D.moment disk.new ≡ D.moment disk.old + 2) }
    ensures most { D.tells ≡ true → D.moment disk.new ≤ D.moment disk.old + 2 }
    ensures within { D.tells ≡ true → Within D.moment D.images disk.old disk.new
        (D.images disk.old (D.moment disk.old)) }
    ensures stop_fails { D.stopped disk.new ≡ true → IsErr result }
    ensures clean { D.tells ≡ true → D.stops ≡ true → D.stopped disk.old ≡ false
        → IsClean D.seen D.leaves disk.old → OnOk result (IsClean D.seen D.leaves disk.new) }
    ensures came { D.came disk.old disk.new }
    ensures cause { HasCause D.may_run_out D.faults D.inner_faults D.stopped disk.old disk.new result }
{
    sync_one(disk, file)?;
    sync_one(disk, file)
}

/// Makes the file anew: an open gate, and these bytes behind it.
pub fn make_anew<D: Disk>(disk: &mut D, file: u32, bytes: &[u8]) -> Result<(), DiskFault>
    ensures made { D.tells ≡ true → OnOk result
        (D.seen disk.new file ≡ 1 ∷ (bytes.now ++ drop (1 + length bytes.now) (D.seen disk.old file))) }
    ensures durable { D.tells ≡ true
        → OnOk result (Only (D.seen disk.new file) (D.images disk.new (D.moment disk.new) file)) }
    ensures counted { D.tells ≡ true → OnOk result (D.moment disk.new ≡ D.moment disk.old + 6) }
    ensures most { D.tells ≡ true → D.moment disk.new ≤ D.moment disk.old + 6 }
    ensures others { D.tells ≡ true → (f : ℕ) → (f ≡ file → ⊥) → D.seen disk.new f ≡ D.seen disk.old f }
    ensures any_moment { D.tells ≡ true → Within D.moment D.images disk.old disk.new
        (OnFile file (IsFreshening (D.seen disk.old file) (D.images disk.old (D.moment disk.old) file) bytes.now)
        (D.images disk.old (D.moment disk.old))) }
    ensures stop_fails { D.stopped disk.new ≡ true → IsErr result }
    ensures clean { D.tells ≡ true → D.stops ≡ true → D.stopped disk.old ≡ false
        → IsClean D.seen D.leaves disk.old → OnOk result (IsClean D.seen D.leaves disk.new) }
    ensures came { D.came disk.old disk.new }
    ensures cause { HasCause D.may_run_out D.faults D.inner_faults D.stopped disk.old disk.new result }
{
    shut(disk, file)?;
    put_down(disk, file, 1, bytes)?;
    put_down(disk, file, 0, &[1])
}
