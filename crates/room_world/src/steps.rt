//! What a line of a schedule does.
ghost use Rattle.std.specs.Prelude.{◌≡◌, ◌≤◌, ◌+◌, ◌<◌, ◌^◌, true, Some, IfOk, IfErr, OnOk};
ghost use Rattle.room_host.specs.Faults.{HasDiskCause, IsWhole};
ghost use Rattle.room_host.specs.Rests.{IsKept, Rests};
ghost use Rattle.room_model.specs.Lines as model;
ghost use Rattle.room_moves.specs.Reading.{Reads};
ghost use Rattle.room_script.specs.Told.{line_of};
ghost use Rattle.room_world.specs.Did.{DoesOn};
ghost use Rattle.room_world.specs.Lines.{IsRunnable, stop_in};
ghost use Rattle.room_world.specs.Seen.{world_on};
ghost use Rattle.room_world.specs.Trying.{TriesOn};

use crate::world::World;
use room_disk::Stop;
use room_fuse::Stopping;
use room_host::HostFault;
use room_json::Names;
use room_script::{How, Line};
use room_tree::Tree;
use std::alloc::Global;

fn stop_of(how: &How) -> Stop
    ensures { result ≡ stop_in how.now }
{
    match how {
        How::Old => Stop::Old,
        How::New => Stop::New,
        How::Torn => Stop::Torn,
    }
}

impl<T: Tree, D: Stopping> World<T, D> {
    /// Does what the line of that number says: the lines that it writes.
    ///
    /// A line of a script alone does nothing. A world that has answered an Err takes no further call.
    pub fn step(
        &mut self,
        alloc: Global,
        disk: &mut D,
        number: u64,
        line: &Line,
    ) -> Result<Names, HostFault>
        requires line { IsRunnable line.now }
        requires room { self.old.opened + 1 < 2 ^ 64 }
        requires kept { D.tells ≡ true
            → IsKept (D.seen disk.old) (D.images disk.old (D.moment disk.old)) self.old.hosting.server }
        requires rests { D.tells ≡ true → D.stops ≡ true → Rests D.seen D.stopped D.leaves disk.old }
        requires read { D.tells ≡ true → D.stops ≡ true → (l : model.Line) → line_of line.now ≡ Some l
            → Reads (world_on D.seen D.armed D.way self.old disk.old) number l }

        ensures does { D.tells ≡ true → D.stops ≡ true → (l : model.Line) → line_of line.now ≡ Some l → IfOk result
            (DoesOn D.seen D.armed D.way self.old disk.old self.new disk.new number l) }
        ensures kept { D.tells ≡ true → OnOk result
            (IsKept (D.seen disk.new) (D.images disk.new (D.moment disk.new)) self.new.hosting.server) }
        ensures rests { D.tells ≡ true → D.stops ≡ true → OnOk result (Rests D.seen D.stopped D.leaves disk.new) }
        ensures opened { self.new.opened ≤ self.old.opened + 1 }
        ensures images { D.tells ≡ true → D.stops ≡ true → (l : model.Line) → line_of line.now ≡ Some l →
            TriesOn D.seen D.armed D.way D.moment D.images self.old disk.old disk.new number l }
        ensures went { D.went disk.old disk.new }
        ensures cause { HasDiskCause D.faults D.inner_faults disk.old disk.new result }
        ensures whole { D.tells ≡ true → IfErr result IsWhole }
    {
        match line {
            Line::Up(k) => self.up(alloc, disk, number, *k),
            Line::Drain(n) => self.drain(alloc, disk, number, *n),
            Line::Stop => self.stop(alloc, disk, number),
            Line::Start => self.start(alloc, disk, number),
            Line::Fuse(n, how) => self.fuse(alloc, disk, number, *n, stop_of(how)),
            Line::Compact => self.compact(alloc, disk, number),
            _ => Ok(self.apart(alloc, number, line)?),
        }
    }
}
