//! Lines of the server, and what it receives: what touches its disk.
ghost use Rattle.std.specs.Prelude.{◌≡◌, ◌≤◌, true, Some, IsSome, IfOk, IfErr, OnOk};
ghost use Rattle.room_disk.specs.Model.{WithinWhole};
ghost use Rattle.room_log.specs.Follows.{most};
ghost use Rattle.room_model.specs.Lines.{OfConnection, OfServer, Up};
ghost use Rattle.room_model.specs.Lines as model;
ghost use Rattle.room_model.specs.Server.{serve};
ghost use Rattle.room_model.specs.World.{answer, entries_in};
ghost use Rattle.room_msg.specs.Frame.{client_frame_in};
ghost use Rattle.room_replay.specs.Files.{Files, StandsFor};
ghost use Rattle.room_server.specs.Hosted.{Hosted, server_in};
ghost use Rattle.room_host.specs.Faults.{HasDiskCause, IsWhole};
ghost use Rattle.room_host.specs.Rests.{IsKept, Rests, SameFiles};
ghost use Rattle.room_host.specs.Seen.{host_in};
ghost use Rattle.room_moves.specs.Fuses.{how_of};
ghost use Rattle.room_moves.specs.Moments.{OfFirst};
ghost use Rattle.room_moves.specs.Reading.{UpReads, AreSendsRead};
ghost use Rattle.room_world.specs.Did.{Does, DoesOn};
ghost use Rattle.room_world.specs.Seen.{world_on};
ghost use Rattle.room_world.specs.Serving.{lines_started, queues_if, queues_started};
ghost use Rattle.room_world.specs.Trying.{TriesOn};

use crate::clients::only;
use crate::sending::send_down;
use crate::world::World;
use room_disk::Stop;
use room_fuse::Stopping;
use room_host::{Heard, Host, HostFault, Started};
use room_json::{Names, NoMemory, Seq, Text};
use room_queues::Queues;
use room_store::Limits;
use room_tree::Tree;
use std::alloc::Global;

/// What waits is lost where the server was stopped.
fn empty_if<D: Stopping>(queues: &mut Queues<D>, stopped: bool)
    ensures { queues.new ≡ queues_if stopped queues.old }
{
    if stopped {
        queues.empty();
    }
}

/// What waits is lost where the disk stopped in a start.
fn empty_after<D: Stopping>(queues: &mut Queues<D>, started: Started)
    ensures { queues.new ≡ queues_started started queues.old }
{
    match started {
        Started::Ran | Started::Began => {},
        Started::Failed => queues.empty(),
    }
}

/// What is written of a start.
fn lines_of_start<T: Tree>(
    alloc: Global,
    host: &Host<T>,
    started: Started,
) -> Result<Names, NoMemory>
    ensures { (fs : Files) → IfOk result (λ ls. ls ≡ lines_started started (host_in host.now.server fs)) }
{
    match started {
        Started::Ran => Ok(Seq::new(alloc)),
        Started::Began => only(alloc, host.started(alloc)?),
        Started::Failed => only(alloc, host.started(alloc)?),
    }
}

impl<T: Tree, D: Stopping> World<T, D> {
    /// The server receives the next frame of a connection.
    pub(crate) fn up(
        &mut self,
        alloc: Global,
        disk: &mut D,
        number: u64,
        k: u64,
    ) -> Result<Names, HostFault>
        requires kept { D.tells ≡ true
            → IsKept (D.seen disk.old) (D.images disk.old (D.moment disk.old)) self.old.hosting.server }
        requires rests { D.tells ≡ true → D.stops ≡ true → Rests D.seen D.stopped D.leaves disk.old }
        requires read { D.tells ≡ true → D.stops ≡ true →
            UpReads (world_on D.seen D.armed D.way self.old disk.old) k }

        ensures does { D.tells ≡ true → D.stops ≡ true → IfOk result
            (DoesOn D.seen D.armed D.way self.old disk.old self.new disk.new number (OfConnection k Up)) }
        ensures kept { D.tells ≡ true → OnOk result
            (IsKept (D.seen disk.new) (D.images disk.new (D.moment disk.new)) self.new.hosting.server) }
        ensures rests { D.tells ≡ true → D.stops ≡ true → OnOk result (Rests D.seen D.stopped D.leaves disk.new) }
        ensures opened { self.new.opened ≡ self.old.opened }
        ensures images { D.tells ≡ true → D.stops ≡ true →
            TriesOn D.seen D.armed D.way D.moment D.images self.old disk.old disk.new number (OfConnection k Up) }
        ensures went { D.went disk.old disk.new }
        ensures cause { HasDiskCause D.faults D.inner_faults disk.old disk.new result }
        ensures whole { D.tells ≡ true → IfErr result IsWhole }
    {
        if !self.host.is_running() {
            return Ok(Seq::new(alloc));
        }
        let Some(text) = self.queues.receive(k) else {
            return Ok(Seq::new(alloc));
        };
        self.hear(alloc, disk, k, &text)?;
        Ok(Seq::new(alloc))
    }

    /// The server stops: what waits is lost.
    pub(crate) fn stop(
        &mut self,
        alloc: Global,
        disk: &mut D,
        number: u64,
    ) -> Result<Names, HostFault>
        requires kept { D.tells ≡ true
            → IsKept (D.seen disk.old) (D.images disk.old (D.moment disk.old)) self.old.hosting.server }
        requires rests { D.tells ≡ true → D.stops ≡ true → Rests D.seen D.stopped D.leaves disk.old }

        ensures does { D.tells ≡ true → D.stops ≡ true → IfOk result
            (DoesOn D.seen D.armed D.way self.old disk.old self.new disk.new number (OfServer model.Stop)) }
        ensures kept { D.tells ≡ true → OnOk result
            (IsKept (D.seen disk.new) (D.images disk.new (D.moment disk.new)) self.new.hosting.server) }
        ensures rests { D.tells ≡ true → D.stops ≡ true → OnOk result (Rests D.seen D.stopped D.leaves disk.new) }
        ensures opened { self.new.opened ≡ self.old.opened }
        ensures images { D.tells ≡ true → D.stops ≡ true →
            TriesOn D.seen D.armed D.way D.moment D.images self.old disk.old disk.new number (OfServer model.Stop) }
        ensures went { D.went disk.old disk.new }
        ensures cause { HasDiskCause D.faults D.inner_faults disk.old disk.new result }
        ensures whole { D.tells ≡ true → IfErr result IsWhole }
    {
        let stopped = self.host.stop(disk)?;
        empty_if(&mut self.queues, stopped);
        Ok(Seq::new(alloc))
    }

    /// The server compacts its files.
    pub(crate) fn compact(
        &mut self,
        alloc: Global,
        disk: &mut D,
        number: u64,
    ) -> Result<Names, HostFault>
        requires kept { D.tells ≡ true
            → IsKept (D.seen disk.old) (D.images disk.old (D.moment disk.old)) self.old.hosting.server }
        requires rests { D.tells ≡ true → D.stops ≡ true → Rests D.seen D.stopped D.leaves disk.old }

        ensures does { D.tells ≡ true → D.stops ≡ true → IfOk result
            (DoesOn D.seen D.armed D.way self.old disk.old self.new disk.new number (OfServer model.Compact)) }
        ensures kept { D.tells ≡ true → OnOk result
            (IsKept (D.seen disk.new) (D.images disk.new (D.moment disk.new)) self.new.hosting.server) }
        ensures rests { D.tells ≡ true → D.stops ≡ true → OnOk result (Rests D.seen D.stopped D.leaves disk.new) }
        ensures opened { self.new.opened ≡ self.old.opened }
        ensures images { D.tells ≡ true → D.stops ≡ true →
            TriesOn D.seen D.armed D.way D.moment D.images self.old disk.old disk.new number (OfServer model.Compact) }
        ensures went { D.went disk.old disk.new }
        ensures cause { HasDiskCause D.faults D.inner_faults disk.old disk.new result }
        ensures whole { D.tells ≡ true → IfErr result IsWhole }
    {
        let stopped = self.host.compact(alloc, disk)?;
        empty_if(&mut self.queues, stopped);
        Ok(Seq::new(alloc))
    }

    /// The disk stops at its call of that number from now on.
    pub(crate) fn fuse(
        &mut self,
        alloc: Global,
        disk: &mut D,
        number: u64,
        calls: u64,
        how: Stop,
    ) -> Result<Names, HostFault>
        requires kept { D.tells ≡ true
            → IsKept (D.seen disk.old) (D.images disk.old (D.moment disk.old)) self.old.hosting.server }
        requires rests { D.tells ≡ true → D.stops ≡ true → Rests D.seen D.stopped D.leaves disk.old }
        requires calls { 1 ≤ calls }

        ensures does { D.tells ≡ true → D.stops ≡ true → IfOk result
            (DoesOn D.seen D.armed D.way self.old disk.old self.new disk.new number
            (OfServer (model.Fuse calls (how_of how)))) }
        ensures kept { D.tells ≡ true → OnOk result
            (IsKept (D.seen disk.new) (D.images disk.new (D.moment disk.new)) self.new.hosting.server) }
        ensures rests { D.tells ≡ true → D.stops ≡ true → OnOk result (Rests D.seen D.stopped D.leaves disk.new) }
        ensures opened { self.new.opened ≡ self.old.opened }
        ensures images { D.tells ≡ true → D.stops ≡ true →
            TriesOn D.seen D.armed D.way D.moment D.images self.old disk.old disk.new number
            (OfServer (model.Fuse calls (how_of how))) }
        ensures went { D.went disk.old disk.new }
        ensures cause { HasDiskCause D.faults D.inner_faults disk.old disk.new result }
        ensures whole { D.tells ≡ true → IfErr result IsWhole }
    {
        disk.arm(calls, how);
        Ok(Seq::new(alloc))
    }

    /// The server starts from its files, unless it runs.
    pub(crate) fn start(
        &mut self,
        alloc: Global,
        disk: &mut D,
        number: u64,
    ) -> Result<Names, HostFault>
        requires kept { D.tells ≡ true
            → IsKept (D.seen disk.old) (D.images disk.old (D.moment disk.old)) self.old.hosting.server }
        requires rests { D.tells ≡ true → D.stops ≡ true → Rests D.seen D.stopped D.leaves disk.old }

        ensures does { D.tells ≡ true → D.stops ≡ true → IfOk result
            (DoesOn D.seen D.armed D.way self.old disk.old self.new disk.new number (OfServer model.Start)) }
        ensures kept { D.tells ≡ true → OnOk result
            (IsKept (D.seen disk.new) (D.images disk.new (D.moment disk.new)) self.new.hosting.server) }
        ensures rests { D.tells ≡ true → D.stops ≡ true → OnOk result (Rests D.seen D.stopped D.leaves disk.new) }
        ensures opened { self.new.opened ≡ self.old.opened }
        ensures images { D.tells ≡ true → D.stops ≡ true →
            TriesOn D.seen D.armed D.way D.moment D.images self.old disk.old disk.new number (OfServer model.Start) }
        ensures went { D.went disk.old disk.new }
        ensures cause { HasDiskCause D.faults D.inner_faults disk.old disk.new result }
        ensures whole { D.tells ≡ true → IfErr result IsWhole }
    {
        let started = self.host.start(alloc, disk)?;
        empty_after(&mut self.queues, started);
        Ok(lines_of_start(alloc, &self.host, started)?)
    }

    /// A frame goes to the server that runs.
    fn hear(&mut self, alloc: Global, disk: &mut D, k: u64, text: &Text) -> Result<(), HostFault>
        requires runs { IsSome self.old.hosting.server }
        requires kept { D.tells ≡ true
            → IsKept (D.seen disk.old) (D.images disk.old (D.moment disk.old)) self.old.hosting.server }
        requires rests { D.tells ≡ true → D.stops ≡ true → Rests D.seen D.stopped D.leaves disk.old }
        requires read { D.tells ≡ true → D.stops ≡ true → (h : Hosted) → self.old.hosting.server ≡ Some h
            → AreSendsRead (serve (server_in h) k (client_frame_in text.now)).outs }

        ensures hears { D.tells ≡ true → D.stops ≡ true → (h : Hosted) → self.old.hosting.server ≡ Some h → OnOk result
            ((answer (world_on D.seen D.armed D.way self.old disk.old) (server_in h) k
            (serve (server_in h) k (client_frame_in text.now))).world
            ≡ world_on D.seen D.armed D.way self.new disk.new) }
        ensures kept { D.tells ≡ true → OnOk result
            (IsKept (D.seen disk.new) (D.images disk.new (D.moment disk.new)) self.new.hosting.server) }
        ensures rests { D.tells ≡ true → D.stops ≡ true → OnOk result (Rests D.seen D.stopped D.leaves disk.new) }
        ensures opened { self.new.opened ≡ self.old.opened }
        ensures images { D.tells ≡ true → (h : Hosted) → self.old.hosting.server ≡ Some h
            → WithinWhole D.moment D.images disk.old disk.new (OfFirst (StandsFor 0) h.store.state
            (entries_in (serve (server_in h) k (client_frame_in text.now)).entry)) }
        ensures went { D.went disk.old disk.new }
        ensures cause { HasDiskCause D.faults D.inner_faults disk.old disk.new result }
        ensures whole { D.tells ≡ true → IfErr result IsWhole }
    {
        match self.host.hear(alloc, disk, k, text)? {
            Heard::Sends(outs) => Ok(send_down(alloc, &mut self.queues, outs)?),
            Heard::Stopped => {
                self.queues.empty();
                Ok(())
            },
        }
    }
}

impl<T: Tree, D: Stopping> World<T, D> {
    /// Other limits, from the next frame on, and after a start.
    pub(crate) fn limit(&mut self, alloc: Global, number: u64, limits: Limits) -> Names
        requires { limits.updates ≤ most }
        ensures does { Does self.old self.new number (OfServer (model.Limit limits.updates limits.sessions)) result }
        ensures opened { self.new.opened ≡ self.old.opened }
        ensures files { SameFiles self.old.hosting.server self.new.hosting.server }
    {
        self.host.limit(limits);
        Seq::new(alloc)
    }

    /// The server's state, or that it is stopped.
    pub(crate) fn show(&self, alloc: Global, number: u64) -> Result<Names, NoMemory>
        ensures { IfOk result (Does self.now self.now number (OfServer model.ShowServer)) }
    {
        only(alloc, self.host.show(alloc)?)
    }

    /// The same with the number of nodes in place of the tree.
    pub(crate) fn brief(&self, alloc: Global, number: u64) -> Result<Names, NoMemory>
        ensures { IfOk result (Does self.now self.now number (OfServer model.BriefServer)) }
    {
        only(alloc, self.host.brief(alloc)?)
    }
}
