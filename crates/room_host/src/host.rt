//! A server that runs or is stopped, over a disk that can stop.
ghost use Rattle.std.specs.Option.{option_copied};
ghost use Rattle.std.specs.Prelude.{◌≡◌, ◌≤◌, ◌⊎◌, IfOk, IfErr, OnOk, OnErr, IsSome, is_some, map, [], true};
ghost use Rattle.std.specs.Prelude.{false, Some, None};
ghost use Rattle.std.specs.FinMap.{get};
ghost use Rattle.room_links.specs.Outs.{written};
ghost use Rattle.room_disk.specs.Model.{WithinWhole};
ghost use Rattle.room_log.specs.Log.{State};
ghost use Rattle.room_log.specs.Follows.{most};
ghost use Rattle.room_replay.specs.Files.{Files, Stands, StandsFor};
ghost use Rattle.room_msg.specs.Frame.{client_frame_in};
ghost use Rattle.room_model.specs.Server.{serve};
ghost use Rattle.room_model.specs.World.{Running, opened_host, limited, first_limits, entries_in};
ghost use Rattle.room_model.specs.World.{links_of, server_shown, server_brief};
ghost use Rattle.room_store.specs.Consistent.{BeforeOr};
ghost use Rattle.room_moves.specs.Moments.{OfFirst};
ghost use Rattle.room_arrivals.specs.Serving.{limits_of};
ghost use Rattle.room_server.specs.Hosted.{Hosted, server_in};
ghost use Rattle.room_host.specs.Faults.{HasDiskCause, IsFault, IsWhole};
ghost use Rattle.room_host.specs.Rests.{IsKept, Rests, SameFiles};
ghost use Rattle.room_host.specs.Seen.{host_in, room_files, fuse_of, state_in_files};
ghost use Rattle.room_host.specs.Outcomes.{HearsAs, StartsAs, CompactsAs, StopsAs, begun, gone_in, outs_in};
ghost use Rattle.room_host.specs.Outcomes.{start_shown};

use crate::fault::HostFault;
use crate::hearing::{compact, hear, stop};
use crate::outcomes::{Heard, Started};
use crate::report::{brief, show, started};
use crate::starting::{open, start};
use room_disk::{Disk, Stop};
use room_fuse::Stopping;
use room_json::{NoMemory, Text};
use room_server::{Outs, Server};
use room_store::Limits;
use room_tree::Tree;
use std::alloc::Global;
use std::marker::Model;

/// The server of a world, or none where it is stopped, and the limits that it starts with. Contracts see both, and by
/// `host_in` the model's host.
#[derive(Drop)]
pub struct Host<T: Tree> {
    server: Option<Server<T>>,
    limits: Limits,
}

impl<T: Tree> Model for Host<T> {
    ghost use Rattle.std.specs.Prelude.{◌≤◌};
    ghost use Rattle.room_log.specs.Follows.{most};
    ghost use Rattle.room_host.specs.Codes.{hosting_code};
    ghost use Rattle.room_host.specs.Seen.{Hosting};

    ghost Value = { Hosting };

    ghost coded = { hosting_code };

    ghost view = { λ h. record { server = h.server; limits = h.limits } };

    ghost invariant = { λ h. h.limits.updates ≤ most };
}

impl<T: Tree> Host<T> {
    /// A running host on a disk that isn't armed: it recovers the room of the first two files, with the default limits.
    pub fn new<D: Stopping>(alloc: Global, disk: &mut D) -> Result<Host<T>, HostFault>
        requires going { D.stopped disk.old ≡ false }
        requires unarmed { D.armed disk.old ≡ 0 }

        ensures kept { D.tells ≡ true → IfOk result (λ h. IsKept (D.seen disk.new)
            (D.images disk.new (D.moment disk.new)) h.server) }
        ensures unarmed { D.armed disk.new ≡ 0 }
        ensures rests { D.tells ≡ true → D.stops ≡ true → Rests D.seen D.stopped D.leaves disk.old
            → OnOk result (Rests D.seen D.stopped D.leaves disk.new) }
        // It runs, with the state that the files stand for.
        ensures host { D.tells ≡ true → (s : State) → Stands s (room_files (D.seen disk.old))
            → (fs : Files) → IfOk result (λ h. host_in h.server fs ≡ Running (begun s first_limits)) }
        ensures state { D.tells ≡ true
            → OnOk result ((s : State) × Stands s (room_files (D.seen disk.old))) }
        ensures limits { IfOk result (λ h. limits_of h.limits ≡ first_limits) }
        ensures images { D.tells ≡ true → (s : State) → Stands s (room_files (D.seen disk.old))
            → WithinWhole D.moment D.images disk.old disk.new
            (BeforeOr (D.images disk.old (D.moment disk.old)) (StandsFor 0 s)) }
        ensures fault { D.tells ≡ true → IfErr result (λ e. (e ≡ HostFault.Disk)
            ⊎ IsFault (room_files (D.seen disk.old)) e) }
        ensures went { D.went disk.old disk.new }
        ensures cause { HasDiskCause D.faults D.inner_faults disk.old disk.new result }
    {
        let limits = Limits {
            updates: 1_000_000_000_000,
            sessions: 1_000_000,
        };
        match open(alloc, disk, limits) {
            Ok(server) => Ok(Host {
                server: Some(server),
                limits,
            }),
            Err(fault) => Err(fault),
        }
    }

    /// The server, where it runs.
    pub fn server(&self) -> Option<&Server<T>>
        ensures { option_copied result ≡ self.now.server }
    {
        self.server.as_ref()
    }

    /// Whether it runs.
    pub fn is_running(&self) -> bool
        ensures { result ≡ is_some self.now.server }
    {
        self.server.is_some()
    }

    /// Whether a connection is attached; none is where it is stopped.
    pub fn is_attached(&self, k: u64) -> bool
        ensures { (fs : Files) → result ≡ is_some (get (links_of (host_in self.now.server fs)) k) }
    {
        match &self.server {
            Some(server) => server.is_attached(k),
            None => false,
        }
    }

    /// A connection begins; its key is its number. Where it is stopped nothing happens. A refused call changes nothing.
    pub fn opened(&mut self, k: u64) -> Result<(), NoMemory>
        ensures host { (fs : Files) → OnOk result
            (host_in self.new.server fs ≡ opened_host (host_in self.old.server fs) k) }
        ensures err { OnErr result (self.new ≡ self.old) }
        ensures limits { self.new.limits ≡ self.old.limits }
        ensures files { SameFiles self.old.server self.new.server }
    {
        match self.server.as_mut() {
            Some(server) => server.opened(k, k),
            None => Ok(()),
        }
    }

    /// A connection is gone: what goes out for it. A refused call changes nothing.
    pub fn gone(&mut self, alloc: Global, k: u64) -> Result<Outs, NoMemory>
        ensures host { (fs : Files) → OnOk result
            (host_in self.new.server fs ≡ gone_in (host_in self.old.server fs) k) }
        ensures outs { (fs : Files) → IfOk result (λ os. os ≡ map written (outs_in (host_in self.old.server fs) k)) }
        ensures err { OnErr result (self.new ≡ self.old) }
        ensures limits { self.new.limits ≡ self.old.limits }
        ensures files { SameFiles self.old.server self.new.server }
    {
        match self.server.as_mut() {
            Some(server) => server.gone(alloc, k),
            None => Ok(Outs::new(alloc)),
        }
    }

    /// Other limits: from the next frame on, and at each start.
    pub fn limit(&mut self, limits: Limits)
        requires { limits.updates ≤ most }
        ensures host { (fs : Files)
            → host_in self.new.server fs ≡ limited (host_in self.old.server fs) (limits_of limits) }
        ensures limits { self.new.limits ≡ limits }
        ensures files { SameFiles self.old.server self.new.server }
    {
        self.limits = limits;
        if let Some(server) = self.server.as_mut() {
            server.set_limits(limits);
        }
    }

    /// Stops: the disk is settled, which disarms it, and the attached connections are gone. Whether it ran; else
    /// nothing happens.
    pub fn stop<D: Stopping>(&mut self, disk: &mut D) -> Result<bool, HostFault>
        requires kept { D.tells ≡ true
            → IsKept (D.seen disk.old) (D.images disk.old (D.moment disk.old)) self.old.server }

        ensures kept { D.tells ≡ true → OnOk result
            (IsKept (D.seen disk.new) (D.images disk.new (D.moment disk.new)) self.new.server) }
        ensures rests { D.tells ≡ true → D.stops ≡ true → Rests D.seen D.stopped D.leaves disk.old
            → OnOk result (Rests D.seen D.stopped D.leaves disk.new) }
        ensures stops { D.tells ≡ true → D.stops ≡ true → Rests D.seen D.stopped D.leaves disk.old
            → IfOk result (StopsAs (host_in self.old.server (room_files (D.seen disk.old)))
            (fuse_of D.armed D.way disk.old) (fuse_of D.armed D.way disk.new)
            (host_in self.new.server (room_files (D.seen disk.new)))) }
        ensures images { D.tells ≡ true → (h : Hosted) → self.old.server ≡ Some h
            → WithinWhole D.moment D.images disk.old disk.new (StandsFor 0 h.store.state) }
        ensures idle { self.old.server ≡ None → disk.new ≡ disk.old }
        ensures limits { self.new.limits ≡ self.old.limits }
        ensures whole { IfErr result IsWhole }
        ensures went { D.went disk.old disk.new }
        ensures cause { HasDiskCause D.faults D.inner_faults disk.old disk.new result }
    {
        let Some(server) = self.server.as_ref() else {
            return Ok(false);
        };
        match stop(server, disk) {
            Ok(()) => {
                self.server = None;
                Ok(true)
            },
            Err(fault) => Err(fault),
        }
    }

    /// Starts, where it is stopped: the room is recovered, by two calls of the disk. Where the disk stops in them, it
    /// comes to rest, and the host stays stopped.
    pub fn start<D: Stopping>(&mut self, alloc: Global, disk: &mut D) -> Result<Started, HostFault>
        requires kept { D.tells ≡ true
            → IsKept (D.seen disk.old) (D.images disk.old (D.moment disk.old)) self.old.server }

        ensures kept { D.tells ≡ true → OnOk result
            (IsKept (D.seen disk.new) (D.images disk.new (D.moment disk.new)) self.new.server) }
        ensures rests { D.tells ≡ true → D.stops ≡ true → Rests D.seen D.stopped D.leaves disk.old
            → OnOk result (Rests D.seen D.stopped D.leaves disk.new) }
        ensures starts { D.tells ≡ true → D.stops ≡ true → Rests D.seen D.stopped D.leaves disk.old
            → IfOk result (StartsAs (host_in self.old.server (room_files (D.seen disk.old))) (limits_of self.old.limits)
            (fuse_of D.armed D.way disk.old) (fuse_of D.armed D.way disk.new)
            (host_in self.new.server (room_files (D.seen disk.new)))) }
        ensures images { D.tells ≡ true → self.old.server ≡ None → WithinWhole D.moment D.images disk.old disk.new
            (StandsFor 0 (state_in_files (room_files (D.seen disk.old)))) }
        ensures idle { IsSome self.old.server → disk.new ≡ disk.old }
        ensures limits { self.new.limits ≡ self.old.limits }
        ensures whole { D.tells ≡ true → IfErr result IsWhole }
        ensures went { D.went disk.old disk.new }
        ensures cause { HasDiskCause D.faults D.inner_faults disk.old disk.new result }
    {
        start(&mut self.server, alloc, disk, self.limits)
    }

    /// Compacts the room's files, where it runs, by six calls of the disk. Whether the disk stopped in them: then it
    /// comes to rest, and the host is stopped.
    pub fn compact<D: Stopping>(&mut self, alloc: Global, disk: &mut D) -> Result<bool, HostFault>
        requires kept { D.tells ≡ true
            → IsKept (D.seen disk.old) (D.images disk.old (D.moment disk.old)) self.old.server }

        ensures kept { D.tells ≡ true → OnOk result
            (IsKept (D.seen disk.new) (D.images disk.new (D.moment disk.new)) self.new.server) }
        ensures rests { D.tells ≡ true → D.stops ≡ true → Rests D.seen D.stopped D.leaves disk.old
            → OnOk result (Rests D.seen D.stopped D.leaves disk.new) }
        ensures compacts { D.tells ≡ true → D.stops ≡ true → Rests D.seen D.stopped D.leaves disk.old
            → IfOk result (CompactsAs (host_in self.old.server (room_files (D.seen disk.old)))
            (fuse_of D.armed D.way disk.old) (fuse_of D.armed D.way disk.new)
            (host_in self.new.server (room_files (D.seen disk.new)))) }
        ensures images { D.tells ≡ true → (h : Hosted) → self.old.server ≡ Some h
            → WithinWhole D.moment D.images disk.old disk.new (StandsFor 0 h.store.state) }
        ensures idle { self.old.server ≡ None → disk.new ≡ disk.old }
        ensures limits { self.new.limits ≡ self.old.limits }
        ensures whole { IfErr result IsWhole }
        ensures went { D.went disk.old disk.new }
        ensures cause { HasDiskCause D.faults D.inner_faults disk.old disk.new result }
    {
        let Some(server) = self.server.as_mut() else {
            return Ok(false);
        };
        match compact(server, alloc, disk) {
            Ok(false) => Ok(false),
            Ok(true) => {
                self.server = None;
                Ok(true)
            },
            Err(fault) => Err(fault),
        }
    }

    /// A running host hears a frame of a connection: what goes out for it, once its entry, if it has one, is on the
    /// disk by four calls. Where the disk stops in them, it comes to rest, nothing goes out, and the host is stopped.
    pub fn hear<D: Stopping>(
        &mut self,
        alloc: Global,
        disk: &mut D,
        k: u64,
        text: &Text,
    ) -> Result<Heard, HostFault>
        requires running { IsSome self.old.server }
        requires kept { D.tells ≡ true
            → IsKept (D.seen disk.old) (D.images disk.old (D.moment disk.old)) self.old.server }

        ensures kept { D.tells ≡ true → OnOk result
            (IsKept (D.seen disk.new) (D.images disk.new (D.moment disk.new)) self.new.server) }
        ensures rests { D.tells ≡ true → D.stops ≡ true → Rests D.seen D.stopped D.leaves disk.old
            → OnOk result (Rests D.seen D.stopped D.leaves disk.new) }
        ensures heard { D.tells ≡ true → D.stops ≡ true → Rests D.seen D.stopped D.leaves disk.old
            → (h : Hosted) → self.old.server ≡ Some h
            → IfOk result (HearsAs (server_in h) (serve (server_in h) k (client_frame_in text.now))
            (fuse_of D.armed D.way disk.old) (fuse_of D.armed D.way disk.new)
            (host_in self.new.server (room_files (D.seen disk.new)))) }
        // The entry counts from the first call on, also where the disk stops and it is not kept.
        ensures images { D.tells ≡ true → (h : Hosted) → self.old.server ≡ Some h
            → WithinWhole D.moment D.images disk.old disk.new (OfFirst (StandsFor 0) h.store.state
            (entries_in (serve (server_in h) k (client_frame_in text.now)).entry)) }
        ensures limits { self.new.limits ≡ self.old.limits }
        ensures whole { IfErr result IsWhole }
        ensures went { D.went disk.old disk.new }
        ensures cause { HasDiskCause D.faults D.inner_faults disk.old disk.new result }
    {
        let Some(server) = self.server.as_mut() else {
            return Ok(Heard::Stopped);
        };
        match hear(server, alloc, disk, k, text) {
            Ok(Heard::Sends(outs)) => Ok(Heard::Sends(outs)),
            Ok(Heard::Stopped) => {
                self.server = None;
                Ok(Heard::Stopped)
            },
            Err(fault) => Err(fault),
        }
    }

    /// What the server shows: the number of updates and the tree, or that it is stopped.
    pub fn show(&self, alloc: Global) -> Result<Text, NoMemory>
        ensures { (fs : Files) → IfOk result (λ t. t ≡ server_shown (host_in self.now.server fs)) }
    {
        show(alloc, &self.server)
    }

    /// In brief: the number of updates, of nodes and of sessions, or that it is stopped.
    pub fn brief(&self, alloc: Global) -> Result<Text, NoMemory>
        ensures { (fs : Files) → IfOk result (λ t. t ≡ server_brief (host_in self.now.server fs)) }
    {
        brief(alloc, &self.server)
    }

    /// The line of a start, after one that changed something: what it found, or that it failed.
    pub fn started(&self, alloc: Global) -> Result<Text, NoMemory>
        ensures { (fs : Files) → IfOk result (λ t. t ≡ start_shown (host_in self.now.server fs)) }
    {
        started(alloc, &self.server)
    }
}
