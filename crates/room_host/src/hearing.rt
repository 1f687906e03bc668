//! A running server hears a frame, is compacted, and stops.
ghost use Rattle.std.specs.Prelude.{◌≡◌, ◌≤◌, ℕ, IfOk, IfErr, OnOk, true, false, [], Some, None};
ghost use Rattle.room_disk.specs.Model.{WithinWhole};
ghost use Rattle.room_replay.specs.Files.{StandsFor};
ghost use Rattle.room_msg.specs.Frame.{client_frame_in};
ghost use Rattle.room_model.specs.Server.{serve};
ghost use Rattle.room_model.specs.World.{Running, entries_in};
ghost use Rattle.room_moves.specs.Moments.{OfFirst};
ghost use Rattle.room_server.specs.Hosted.{server_in};
ghost use Rattle.room_host.specs.Faults.{HasDiskCause, IsWhole};
ghost use Rattle.room_host.specs.Rests.{Runs, Lies, IsKept, Rests};
ghost use Rattle.room_host.specs.Seen.{host_in, room_files, fuse_of};
ghost use Rattle.room_host.specs.Outcomes.{HearsAs, CompactsAs, StopsAs, server_after, server_unless};

use crate::ending::end;
use crate::fault::{HostFault, of_server};
use crate::outcomes::Heard;
use crate::resting::rest;
use room_disk::{Disk, Stop};
use room_fuse::Stopping;
use room_json::Text;
use room_server::Server;
use room_tree::Tree;
use std::alloc::Global;

/// A frame. Where the disk stops in its commit, it comes to rest.
pub fn hear<D: Stopping, T: Tree>(
    server: &mut Server<T>,
    alloc: Global,
    disk: &mut D,
    k: u64,
    text: &Text,
) -> Result<Heard, HostFault>
    requires kept { D.tells ≡ true → Runs (D.seen disk.old) (D.images disk.old (D.moment disk.old)) server.old }

    ensures kept { D.tells ≡ true → IfOk result (λ r. IsKept (D.seen disk.new)
        (D.images disk.new (D.moment disk.new)) (server_after r server.new)) }
    ensures rests { D.tells ≡ true → D.stops ≡ true → Rests D.seen D.stopped D.leaves disk.old
        → OnOk result (Rests D.seen D.stopped D.leaves disk.new) }
    ensures heard { D.tells ≡ true → D.stops ≡ true → Rests D.seen D.stopped D.leaves disk.old
        → IfOk result (λ r. HearsAs (server_in server.old) (serve (server_in server.old) k (client_frame_in text.now))
        (fuse_of D.armed D.way disk.old) (fuse_of D.armed D.way disk.new)
        (host_in (server_after r server.new) (room_files (D.seen disk.new))) r) }
    ensures images { D.tells ≡ true → WithinWhole D.moment D.images disk.old disk.new
        (OfFirst (StandsFor 0) server.old.store.state
        (entries_in (serve (server_in server.old) k (client_frame_in text.now)).entry)) }
    ensures whole { IfErr result IsWhole }
    ensures went { D.went disk.old disk.new }
    ensures cause { HasDiskCause D.faults D.inner_faults disk.old disk.new result }
{
    match server.frame(alloc, disk, k, text) {
        Ok(outs) => Ok(Heard::Sends(outs)),
        Err(fault) => {
            end(disk, of_server(fault))?;
            Ok(Heard::Stopped)
        },
    }
}

/// A compaction: whether the disk stopped in it, and came to rest.
pub fn compact<D: Stopping, T: Tree>(
    server: &mut Server<T>,
    alloc: Global,
    disk: &mut D,
) -> Result<bool, HostFault>
    requires kept { D.tells ≡ true → Runs (D.seen disk.old) (D.images disk.old (D.moment disk.old)) server.old }

    ensures kept { D.tells ≡ true → IfOk result (λ r. IsKept (D.seen disk.new)
        (D.images disk.new (D.moment disk.new)) (server_unless r server.new)) }
    ensures rests { D.tells ≡ true → D.stops ≡ true → Rests D.seen D.stopped D.leaves disk.old
        → OnOk result (Rests D.seen D.stopped D.leaves disk.new) }
    ensures compacts { D.tells ≡ true → D.stops ≡ true → Rests D.seen D.stopped D.leaves disk.old
        → IfOk result (λ r. CompactsAs (Running (server_in server.old))
        (fuse_of D.armed D.way disk.old) (fuse_of D.armed D.way disk.new)
        (host_in (server_unless r server.new) (room_files (D.seen disk.new))) r) }
    ensures images { D.tells ≡ true → WithinWhole D.moment D.images disk.old disk.new
        (StandsFor 0 server.old.store.state) }
    ensures whole { IfErr result IsWhole }
    ensures went { D.went disk.old disk.new }
    ensures cause { HasDiskCause D.faults D.inner_faults disk.old disk.new result }
{
    match server.compact(alloc, disk) {
        Ok(()) => Ok(false),
        Err(fault) => {
            end(disk, of_server(fault))?;
            Ok(true)
        },
    }
}

/// A stop: the disk is settled, which disarms it, and comes to rest.
pub fn stop<D: Stopping, T: Tree>(server: &Server<T>, disk: &mut D) -> Result<(), HostFault>
    requires kept { D.tells ≡ true → Runs (D.seen disk.old) (D.images disk.old (D.moment disk.old)) server.now }

    ensures kept { D.tells ≡ true → OnOk result (Lies (D.images disk.new (D.moment disk.new))) }
    ensures rests { D.tells ≡ true → D.stops ≡ true → OnOk result (Rests D.seen D.stopped D.leaves disk.new) }
    ensures stops { D.tells ≡ true → OnOk result (StopsAs (Running (server_in server.now))
        (fuse_of D.armed D.way disk.old) (fuse_of D.armed D.way disk.new)
        (host_in None (room_files (D.seen disk.new))) true) }
    ensures images { D.tells ≡ true → WithinWhole D.moment D.images disk.old disk.new
        (StandsFor 0 server.now.store.state) }
    ensures whole { IfErr result IsWhole }
    ensures went { D.went disk.old disk.new }
    ensures cause { HasDiskCause D.faults D.inner_faults disk.old disk.new result }
{
    match rest(disk) {
        Ok(()) => Ok(()),
        Err(fault) => Err(fault),
    }
}
