//! A server begins with what its files stand for.
ghost use Rattle.std.specs.Prelude.{◌≡◌, ◌≤◌, ◌⊎◌, ◌+◌, ℕ, IfOk, IfErr, OnOk, IsErr, IsSome, true, false, None};
ghost use Rattle.room_disk.specs.Model.{Within, WithinWhole};
ghost use Rattle.room_log.specs.Log.{State};
ghost use Rattle.room_log.specs.Follows.{most};
ghost use Rattle.room_replay.specs.Files.{Stands, StandsFor};
ghost use Rattle.room_journal.specs.Appends.{IsClean};
ghost use Rattle.room_store.specs.Consistent.{BeforeOr, AreWritten};
ghost use Rattle.room_store.specs.Stored.{IsOnDisk};
ghost use Rattle.room_store.specs.Faults.{IsFault as IsStoreFault, HasDiskCause as HasStoreCause};
ghost use Rattle.room_server.specs.Commit.{HoldsNow};
ghost use Rattle.room_model.specs.World.{Stopped};
ghost use Rattle.room_arrivals.specs.Serving.{limits_of};
ghost use Rattle.room_server.specs.Hosted.{server_in, broken_by};
ghost use Rattle.room_host.specs.Faults.{HasDiskCause, IsFault, IsWhole};
ghost use Rattle.room_host.specs.Rests.{Runs, Lies, IsKept, Rests};
ghost use Rattle.room_host.specs.Seen.{host_in, room_files, fuse_of, state_in_files};
ghost use Rattle.room_host.specs.Outcomes.{StartsAs, begun, started_by};

use crate::ending::end;
use crate::fault::{HostFault, of_store};
use crate::outcomes::Started;
use room_disk::{Disk, Stop};
use room_fuse::Stopping;
use room_json::Text;
use room_server::Server;
use room_store::{Limits, StoreFault};
use room_tree::Tree;
use std::alloc::Global;

/// Recovers the room of a world.
fn recover<D: Disk, T: Tree>(
    alloc: Global,
    disk: &mut D,
    limits: Limits,
) -> Result<Server<T>, StoreFault>
    requires { limits.updates ≤ most }

    ensures base { IfOk result (λ h. h.store.place.base ≡ 0) }
    ensures whole { IfOk result (λ h. broken_by h ≡ None) }
    ensures server { IfOk result (λ h. server_in h ≡ begun h.store.state (limits_of limits)) }
    ensures state { D.tells ≡ true → IfOk result (λ h. Stands h.store.state (room_files (D.seen disk.old))) }
    ensures settled { D.tells ≡ true → IfOk result (λ h.
        IsOnDisk (D.seen disk.new) (D.images disk.new (D.moment disk.new)) h.store) }
    ensures any_moment { D.tells ≡ true → (s : State) → Stands s (room_files (D.seen disk.old))
        → WithinWhole D.moment D.images disk.old disk.new
        (BeforeOr (D.images disk.old (D.moment disk.old)) (StandsFor 0 s)) }
    ensures held { D.tells ≡ true → IfOk result (λ h. HoldsNow D.moment D.images 0 h.store.state disk.new) }
    ensures two { D.tells ≡ true → AreWritten 0 (D.seen disk.old) → D.moment disk.new ≤ D.moment disk.old + 2 }
    ensures counted { D.tells ≡ true → AreWritten 0 (D.seen disk.old)
        → OnOk result (D.moment disk.new ≡ D.moment disk.old + 2) }
    ensures still { D.tells ≡ true → AreWritten 0 (D.seen disk.old)
        → Within D.moment D.images disk.old disk.new (D.images disk.old (D.moment disk.old)) }
    ensures fault { D.tells ≡ true → IfErr result (λ e. (e ≡ StoreFault.Disk)
        ⊎ IsStoreFault (room_files (D.seen disk.old)) e) }
    ensures stop_fails { D.stopped disk.old ≡ false → D.stopped disk.new ≡ true → IsErr result }
    ensures clean { D.tells ≡ true → D.stops ≡ true → D.stopped disk.old ≡ false
        → IsClean D.seen D.leaves disk.old → OnOk result (IsClean D.seen D.leaves disk.new) }
    ensures came { D.came disk.old disk.new }
    ensures cause { HasStoreCause D.faults D.inner_faults D.stopped disk.old disk.new result }
{
    let Ok(room) = Text::from_str(alloc, "room") else {
        return Err(StoreFault::Memory);
    };
    let Ok(empty) = T::empty(alloc) else {
        return Err(StoreFault::Memory);
    };
    Server::recover(alloc, disk, 0, &room, empty, limits)
}

/// Recovers the room of a world on a disk that isn't armed.
pub fn open<D: Stopping, T: Tree>(
    alloc: Global,
    disk: &mut D,
    limits: Limits,
) -> Result<Server<T>, HostFault>
    requires limits { limits.updates ≤ most }
    requires going { D.stopped disk.old ≡ false }
    requires unarmed { D.armed disk.old ≡ 0 }

    ensures kept { D.tells ≡ true
        → IfOk result (Runs (D.seen disk.new) (D.images disk.new (D.moment disk.new))) }
    ensures going { D.stopped disk.new ≡ false }
    ensures unarmed { D.armed disk.new ≡ 0 }
    ensures rests { D.tells ≡ true → D.stops ≡ true → Rests D.seen D.stopped D.leaves disk.old
        → OnOk result (Rests D.seen D.stopped D.leaves disk.new) }
    ensures server { IfOk result (λ h. server_in h ≡ begun h.store.state (limits_of limits)) }
    ensures state { D.tells ≡ true → IfOk result (λ h. Stands h.store.state (room_files (D.seen disk.old))) }
    ensures images { D.tells ≡ true → (s : State) → Stands s (room_files (D.seen disk.old))
        → WithinWhole D.moment D.images disk.old disk.new
        (BeforeOr (D.images disk.old (D.moment disk.old)) (StandsFor 0 s)) }
    ensures fault { D.tells ≡ true → IfErr result (λ e. (e ≡ HostFault.Disk)
        ⊎ IsFault (room_files (D.seen disk.old)) e) }
    ensures went { D.went disk.old disk.new }
    ensures cause { HasDiskCause D.faults D.inner_faults disk.old disk.new result }
{
    match recover(alloc, disk, limits) {
        Ok(server) => Ok(server),
        Err(fault) => Err(of_store(fault)),
    }
}

/// Starts a stopped server. Where the disk stops in its recovery, it comes to rest, and there is none.
fn begin<D: Stopping, T: Tree>(
    alloc: Global,
    disk: &mut D,
    limits: Limits,
) -> Result<Option<Server<T>>, HostFault>
    requires limits { limits.updates ≤ most }
    requires kept { D.tells ≡ true → Lies (D.images disk.old (D.moment disk.old)) }

    ensures kept { D.tells ≡ true
        → IfOk result (IsKept (D.seen disk.new) (D.images disk.new (D.moment disk.new))) }
    ensures rests { D.tells ≡ true → D.stops ≡ true → Rests D.seen D.stopped D.leaves disk.old
        → OnOk result (Rests D.seen D.stopped D.leaves disk.new) }
    ensures starts { D.tells ≡ true → D.stops ≡ true → Rests D.seen D.stopped D.leaves disk.old
        → IfOk result (λ o. StartsAs (Stopped (state_in_files (room_files (D.seen disk.old)))) (limits_of limits)
        (fuse_of D.armed D.way disk.old) (fuse_of D.armed D.way disk.new)
        (host_in o (room_files (D.seen disk.new))) (started_by o)) }
    ensures images { D.tells ≡ true → WithinWhole D.moment D.images disk.old disk.new
        (StandsFor 0 (state_in_files (room_files (D.seen disk.old)))) }
    ensures whole { D.tells ≡ true → IfErr result IsWhole }
    ensures went { D.went disk.old disk.new }
    ensures cause { HasDiskCause D.faults D.inner_faults disk.old disk.new result }
{
    match recover(alloc, disk, limits) {
        Ok(server) => Ok(Some(server)),
        Err(fault) => {
            end(disk, of_store(fault))?;
            Ok(None)
        },
    }
}

/// Starts a server where none runs.
pub fn start<D: Stopping, T: Tree>(
    server: &mut Option<Server<T>>,
    alloc: Global,
    disk: &mut D,
    limits: Limits,
) -> Result<Started, HostFault>
    requires limits { limits.updates ≤ most }
    requires kept { D.tells ≡ true → IsKept (D.seen disk.old) (D.images disk.old (D.moment disk.old)) server.old }

    ensures kept { D.tells ≡ true → OnOk result
        (IsKept (D.seen disk.new) (D.images disk.new (D.moment disk.new)) server.new) }
    ensures rests { D.tells ≡ true → D.stops ≡ true → Rests D.seen D.stopped D.leaves disk.old
        → OnOk result (Rests D.seen D.stopped D.leaves disk.new) }
    ensures starts { D.tells ≡ true → D.stops ≡ true → Rests D.seen D.stopped D.leaves disk.old
        → IfOk result (StartsAs (host_in server.old (room_files (D.seen disk.old))) (limits_of limits)
        (fuse_of D.armed D.way disk.old) (fuse_of D.armed D.way disk.new)
        (host_in server.new (room_files (D.seen disk.new)))) }
    ensures images { D.tells ≡ true → server.old ≡ None → WithinWhole D.moment D.images disk.old disk.new
        (StandsFor 0 (state_in_files (room_files (D.seen disk.old)))) }
    ensures idle { IsSome server.old → disk.new ≡ disk.old }
    ensures whole { D.tells ≡ true → IfErr result IsWhole }
    ensures went { D.went disk.old disk.new }
    ensures cause { HasDiskCause D.faults D.inner_faults disk.old disk.new result }
{
    match server {
        Some(_) => Ok(Started::Ran),
        None => match begin(alloc, disk, limits) {
            Ok(Some(begun)) => {
                *server = Some(begun);
                Ok(Started::Began)
            },
            Ok(None) => Ok(Started::Failed),
            Err(fault) => Err(fault),
        },
    }
}
