//! A server ends where its disk stopped.
ghost use Rattle.std.specs.Prelude.{◌≡◌, ◌≤◌, ◌⊎◌, ◌+◌, ℕ, IfErr, OnOk, IsErrOf, true, false};
ghost use Rattle.room_edge.specs.Causes.{Rose};
ghost use Rattle.room_disk.specs.Model.{Only, Within};
ghost use Rattle.room_journal.specs.Appends.{IsClean};
ghost use Rattle.room_host.specs.Faults.{IsWhole};

use crate::fault::HostFault;
use crate::resting::rest;
use room_disk::{Disk, Stop};
use room_fuse::Stopping;

/// Brings a disk that has stopped to rest; the files are what its way leaves. Where it hasn't stopped, the fault is
/// handed on.
pub fn end<D: Stopping>(disk: &mut D, fault: HostFault) -> Result<(), HostFault>
    ensures stopped { OnOk result (D.stopped disk.old ≡ true) }
    ensures left { D.tells ≡ true → OnOk result ((f : ℕ) → D.seen disk.new f ≡ D.leaves disk.old (D.way disk.old) f) }
    ensures going { OnOk result (D.stopped disk.new ≡ false) }
    ensures unarmed { OnOk result (D.armed disk.new ≡ 0) }
    ensures first { D.tells ≡ true → OnOk result (Only (D.seen disk.new 0) (D.images disk.new (D.moment disk.new) 0)) }
    ensures second { D.tells ≡ true
        → OnOk result (Only (D.seen disk.new (0 + 1)) (D.images disk.new (D.moment disk.new) (0 + 1))) }
    ensures clean { D.tells ≡ true → D.stops ≡ true → OnOk result (IsClean D.seen D.leaves disk.new) }
    ensures within { D.tells ≡ true → Within D.moment D.images disk.old disk.new
        (D.images disk.old (D.moment disk.old)) }
    ensures whole { IsWhole fault → IfErr result IsWhole }
    ensures went { D.went disk.old disk.new }
    ensures later { D.faults disk.old ≤ D.faults disk.new }
    ensures inner_later { D.inner_faults disk.old ≤ D.inner_faults disk.new }
    ensures failed { IsErrOf result HostFault.Disk → ((D.stopped disk.old ≡ false) × (fault ≡ HostFault.Disk))
        ⊎ Rose (D.inner_faults disk.old) (D.inner_faults disk.new) }
{
    if !disk.fired() {
        return Err(fault);
    }
    rest(disk)
}
