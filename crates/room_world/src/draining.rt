//! A drain: what waits is received, one frame after the other, until nothing waits.
ghost use Rattle.std.specs.Prelude.{◌≡◌, ◌++◌, true, IfOk, IfErr, OnOk};
ghost use Rattle.room_model.specs.Lines as model;
ghost use Rattle.room_host.specs.Faults.{HasDiskCause, IsWhole};
ghost use Rattle.room_host.specs.Rests.{IsKept, Rests};
ghost use Rattle.room_moves.specs.Reading.{NextReads, DrainReads};
ghost use Rattle.room_world.specs.Did.{DoesOn};
ghost use Rattle.room_world.specs.Moving.{Moves, TriesNext};
ghost use Rattle.room_world.specs.Seen.{world_on};
ghost use Rattle.room_world.specs.Trying.{TriesOn};

use crate::world::World;
use room_fuse::Stopping;
use room_host::HostFault;
use room_json::{Names, NoMemory, Seq};
use room_tree::Tree;
use std::alloc::Global;

/// Appends lines.
pub(crate) fn append(lines: &mut Names, more: Names) -> Result<(), NoMemory>
    ensures { OnOk result (lines.new ≡ lines.old ++ more) }
{
    for line in more.into_vec() {
        lines.push(line)?;
    }
    Ok(())
}

impl<T: Tree, D: Stopping> World<T, D> {
    /// The next frame that waits is received: by the server, on the least connection where something goes up, else by the
    /// client or the link of the least one where something goes down. None where nothing waits.
    fn once(&mut self, alloc: Global, disk: &mut D, number: u64) -> Result<Option<Names>, HostFault>
        requires kept { D.tells ≡ true
            → IsKept (D.seen disk.old) (D.images disk.old (D.moment disk.old)) self.old.hosting.server }
        requires rests { D.tells ≡ true → D.stops ≡ true → Rests D.seen D.stopped D.leaves disk.old }
        requires read { D.tells ≡ true → D.stops ≡ true →
            NextReads (world_on D.seen D.armed D.way self.old disk.old) }

        ensures moves { D.tells ≡ true → D.stops ≡ true → IfOk result
            (Moves (world_on D.seen D.armed D.way self.old disk.old) number
            (world_on D.seen D.armed D.way self.new disk.new)) }
        ensures kept { D.tells ≡ true → OnOk result
            (IsKept (D.seen disk.new) (D.images disk.new (D.moment disk.new)) self.new.hosting.server) }
        ensures rests { D.tells ≡ true → D.stops ≡ true → OnOk result (Rests D.seen D.stopped D.leaves disk.new) }
        ensures opened { self.new.opened ≡ self.old.opened }
        ensures images { D.tells ≡ true → D.stops ≡ true →
            TriesNext D.seen D.armed D.way D.moment D.images self.old disk.old disk.new }
        ensures went { D.went disk.old disk.new }
        ensures cause { HasDiskCause D.faults D.inner_faults disk.old disk.new result }
        ensures whole { D.tells ≡ true → IfErr result IsWhole }
    {
        if let Some(k) = self.queues.least_inbound() {
            return Ok(Some(self.up(alloc, disk, number, k)?));
        }
        match self.queues.least_outbound() {
            Some(k) => Ok(Some(self.down(alloc, number, k)?)),
            None => Ok(None),
        }
    }

    /// So many times the next frame is received.
    pub(crate) fn drain(
        &mut self,
        alloc: Global,
        disk: &mut D,
        number: u64,
        n: u64,
    ) -> Result<Names, HostFault>
        requires kept { D.tells ≡ true
            → IsKept (D.seen disk.old) (D.images disk.old (D.moment disk.old)) self.old.hosting.server }
        requires rests { D.tells ≡ true → D.stops ≡ true → Rests D.seen D.stopped D.leaves disk.old }
        requires read { D.tells ≡ true → D.stops ≡ true →
            DrainReads (world_on D.seen D.armed D.way self.old disk.old) number n }

        ensures does { D.tells ≡ true → D.stops ≡ true → IfOk result
            (DoesOn D.seen D.armed D.way self.old disk.old self.new disk.new number (model.Drain n)) }
        ensures kept { D.tells ≡ true → OnOk result
            (IsKept (D.seen disk.new) (D.images disk.new (D.moment disk.new)) self.new.hosting.server) }
        ensures rests { D.tells ≡ true → D.stops ≡ true → OnOk result (Rests D.seen D.stopped D.leaves disk.new) }
        ensures opened { self.new.opened ≡ self.old.opened }
        ensures images { D.tells ≡ true → D.stops ≡ true →
            TriesOn D.seen D.armed D.way D.moment D.images self.old disk.old disk.new number (model.Drain n) }
        ensures went { D.went disk.old disk.new }
        ensures cause { HasDiskCause D.faults D.inner_faults disk.old disk.new result }
        ensures whole { D.tells ≡ true → IfErr result IsWhole }
    {
        let mut lines = Seq::new(alloc);
        let mut left = n;
        while left > 0 {
            let Some(more) = self.once(alloc, disk, number)? else {
                return Ok(lines);
            };
            append(&mut lines, more)?;
            left -= 1;
        }
        Ok(lines)
    }
}
