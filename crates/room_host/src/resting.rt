//! A disk comes to rest: it is settled, and both files are put beyond any stop.
ghost use Rattle.std.specs.Prelude.{◌≡◌, ◌+◌, ℕ, IfErr, OnOk, true, false};
ghost use Rattle.room_disk.specs.Model.{Only, Within};
ghost use Rattle.room_journal.specs.Appends.{IsClean};
ghost use Rattle.room_host.specs.Faults.{HasDiskCause, IsWhole};

use crate::fault::{HostFault, of_disk};
use room_disk::{Disk, Stop};
use room_fuse::Stopping;

/// Ends the stop of a disk in its way, or, where none came, drops what is held back; and disarms.
fn settle<D: Stopping>(disk: &mut D) -> Result<(), HostFault>
    ensures left { D.tells ≡ true → OnOk result ((f : ℕ) → D.seen disk.new f ≡ D.leaves disk.old (D.ends disk.old) f) }
    ensures plain { OnOk result (D.plain disk.new) }
    ensures within { D.tells ≡ true → Within D.moment D.images disk.old disk.new
        (D.images disk.old (D.moment disk.old)) }
    ensures whole { IfErr result IsWhole }
    ensures went { D.went disk.old disk.new }
    ensures cause { HasDiskCause D.faults D.inner_faults disk.old disk.new result }
{
    match disk.settle() {
        Ok(()) => Ok(()),
        Err(fault) => Err(of_disk(fault)),
    }
}

/// Puts a file of a disk that isn't armed beyond any stop, as it reads.
fn sync<D: Stopping>(disk: &mut D, file: u32) -> Result<(), HostFault>
    requires going { D.stopped disk.old ≡ false }
    requires unarmed { D.armed disk.old ≡ 0 }

    ensures going { D.stopped disk.new ≡ false }
    ensures unarmed { D.armed disk.new ≡ 0 }
    ensures same { D.tells ≡ true → (f : ℕ) → D.seen disk.new f ≡ D.seen disk.old f }
    ensures durable { D.tells ≡ true
        → OnOk result (Only (D.seen disk.new file) (D.images disk.new (D.moment disk.new) file)) }
    ensures within { D.tells ≡ true → Within D.moment D.images disk.old disk.new
        (D.images disk.old (D.moment disk.old)) }
    ensures clean { D.tells ≡ true → D.stops ≡ true → IsClean D.seen D.leaves disk.old
        → OnOk result (IsClean D.seen D.leaves disk.new) }
    ensures whole { IfErr result IsWhole }
    ensures went { D.went disk.old disk.new }
    ensures cause { HasDiskCause D.faults D.inner_faults disk.old disk.new result }
{
    match disk.sync(file) {
        Ok(()) => Ok(()),
        Err(fault) => Err(of_disk(fault)),
    }
}

/// Settles a disk, and puts both files as they read beyond any stop. The files are what the stop leaves, or, where none
/// came, what they were without what is held back.
pub fn rest<D: Stopping>(disk: &mut D) -> Result<(), HostFault>
    ensures left { D.tells ≡ true → OnOk result ((f : ℕ) → D.seen disk.new f ≡ D.leaves disk.old (D.ends disk.old) f) }
    ensures going { OnOk result (D.stopped disk.new ≡ false) }
    ensures unarmed { OnOk result (D.armed disk.new ≡ 0) }
    ensures first { D.tells ≡ true → OnOk result (Only (D.seen disk.new 0) (D.images disk.new (D.moment disk.new) 0)) }
    ensures second { D.tells ≡ true
        → OnOk result (Only (D.seen disk.new (0 + 1)) (D.images disk.new (D.moment disk.new) (0 + 1))) }
    ensures clean { D.tells ≡ true → D.stops ≡ true → OnOk result (IsClean D.seen D.leaves disk.new) }
    ensures within { D.tells ≡ true → Within D.moment D.images disk.old disk.new
        (D.images disk.old (D.moment disk.old)) }
    ensures whole { IfErr result IsWhole }
    ensures went { D.went disk.old disk.new }
    ensures cause { HasDiskCause D.faults D.inner_faults disk.old disk.new result }
{
    settle(disk)?;
    sync(disk, 0)?;
    sync(disk, 1)
}
