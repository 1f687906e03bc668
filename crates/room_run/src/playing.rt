//! Lines are done, and what they write is written.
ghost use Rattle.std.specs.Prelude.{◌≡◌, ◌≤◌, ◌+◌, ◌<◌, ◌^◌, true, Some, length, IfErr, OnOk};
ghost use Rattle.room_host.specs.Rests.{IsKept, Rests};
ghost use Rattle.room_model.specs.Lines as model;
ghost use Rattle.room_moves.specs.Reading.{Reads, AllRead};
ghost use Rattle.room_script.specs.Forms.{AreScheduled, lines_of};
ghost use Rattle.room_script.specs.Told.{line_of};
ghost use Rattle.room_world.specs.Lines.{IsRunnable, AreRunnable};
ghost use Rattle.room_world.specs.Seen.{world_on};
ghost use Rattle.room_run.specs.Halting.{HasCauses, IsDone, IsWhole};
ghost use Rattle.room_run.specs.Running.{Plays, Runs};

use crate::halt::{Halt, halt_of};
use crate::telling::tell;
use room_edge::Sink;
use room_fuse::Stopping;
use room_script::Line;
use room_tree::Tree;
use room_world::World;
use std::alloc::Global;

/// Does what the line of that number says, and writes what it writes.
pub(crate) fn play<T: Tree, D: Stopping, K: Sink>(
    alloc: Global,
    world: &mut World<T, D>,
    disk: &mut D,
    sink: &mut K,
    number: u64,
    line: &Line,
) -> Result<(), Halt>
    requires line { IsRunnable line.now }
    requires room { world.old.opened + 1 < 2 ^ 64 }
    requires kept { D.tells ≡ true
        → IsKept (D.seen disk.old) (D.images disk.old (D.moment disk.old)) world.old.hosting.server }
    requires rests { D.tells ≡ true → D.stops ≡ true → Rests D.seen D.stopped D.leaves disk.old }
    requires read { D.tells ≡ true → D.stops ≡ true → (l : model.Line) → line_of line.now ≡ Some l
        → Reads (world_on D.seen D.armed D.way world.old disk.old) number l }

    ensures plays { D.tells ≡ true → D.stops ≡ true → (l : model.Line) → line_of line.now ≡ Some l
        → Plays (D.inner_images disk.old) (D.inner_images disk.new) (world_on D.seen D.armed D.way world.old disk.old)
        (world_on D.seen D.armed D.way world.new disk.new) (number, l) (K.written sink.old) (K.written sink.new)
        (D.inner_moment disk.old) (D.inner_moment disk.new) result }
    ensures kept { D.tells ≡ true → IsDone result
        → IsKept (D.seen disk.new) (D.images disk.new (D.moment disk.new)) world.new.hosting.server }
    ensures rests { D.tells ≡ true → D.stops ≡ true → IsDone result → Rests D.seen D.stopped D.leaves disk.new }
    ensures opened { world.new.opened ≤ world.old.opened + 1 }
    ensures went { D.went disk.old disk.new }
    ensures causes { HasCauses D.faults D.inner_faults K.faults disk.old disk.new sink.old sink.new result }
    ensures whole { D.tells ≡ true → IfErr result IsWhole }
{
    match world.step(alloc, disk, number, line) {
        Ok(lines) => tell(alloc, sink, lines),
        Err(fault) => Err(halt_of(fault)),
    }
}

/// Does the lines, each with its number, one after the other, and writes what each writes before the next is begun.
pub(crate) fn play_all<T: Tree, D: Stopping, K: Sink>(
    alloc: Global,
    world: &mut World<T, D>,
    disk: &mut D,
    sink: &mut K,
    lines: &[(u64, Line)],
) -> Result<(), Halt>
    requires runnable { AreRunnable lines.now }
    requires scheduled { AreScheduled lines.now }
    requires room { world.old.opened + length lines.now < 2 ^ 64 }
    requires kept { D.tells ≡ true
        → IsKept (D.seen disk.old) (D.images disk.old (D.moment disk.old)) world.old.hosting.server }
    requires rests { D.tells ≡ true → D.stops ≡ true → Rests D.seen D.stopped D.leaves disk.old }
    requires read { D.tells ≡ true → D.stops ≡ true
        → AllRead (world_on D.seen D.armed D.way world.old disk.old) (lines_of lines.now) }

    ensures runs { D.tells ≡ true → D.stops ≡ true → Runs result (D.inner_images disk.new)
        (world_on D.seen D.armed D.way world.old disk.old) (lines_of lines.now)
        (K.written sink.old) (K.written sink.new) (D.inner_moment disk.old) (D.inner_moment disk.new)
        (world_on D.seen D.armed D.way world.new disk.new) }
    ensures kept { D.tells ≡ true → OnOk result
        (IsKept (D.seen disk.new) (D.images disk.new (D.moment disk.new)) world.new.hosting.server) }
    ensures rests { D.tells ≡ true → D.stops ≡ true → OnOk result (Rests D.seen D.stopped D.leaves disk.new) }
    ensures went { D.went disk.old disk.new }
    ensures causes { HasCauses D.faults D.inner_faults K.faults disk.old disk.new sink.old sink.new result }
    ensures whole { D.tells ≡ true → IfErr result IsWhole }
{
    for (number, line) in lines {
        play(alloc, world, disk, sink, *number, line)?;
    }
    Ok(())
}
