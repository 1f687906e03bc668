//! The lines of a schedule, one after the other.
ghost use Rattle.std.specs.Prelude.{◌≡◌, ◌≤◌, ◌+◌, ◌<◌, ◌^◌, ◌⊎◌, true, [], length, IfErr, OnOk};
ghost use Rattle.std.specs.Io.KnownBytes.{Appends};
ghost use Rattle.room_host.specs.Rests.{IsKept, Rests};
ghost use Rattle.room_host.specs.Seen.{room_files};
ghost use Rattle.room_laws.specs.Validity.{AreLines};
ghost use Rattle.room_log.specs.Log.{State};
ghost use Rattle.room_moves.specs.Reading.{AllRead};
ghost use Rattle.room_replay.specs.Files.{Stands};
ghost use Rattle.room_script.specs.Forms.{AreScheduled, lines_of};
ghost use Rattle.room_world.specs.Lines.{AreRunnable};
ghost use Rattle.room_world.specs.Seen.{world_on};
ghost use Rattle.room_run.specs.Halting.{HasCauses, IsOfFiles, IsWhole};
ghost use Rattle.room_run.specs.Running.{Replays, Runs};

use crate::halt::{Halt, halt_of};
use crate::playing::play_all;
use room_edge::Sink;
use room_fuse::Stopping;
use room_script::Line;
use room_tree::Tree;
use room_world::World;
use std::alloc::Global;

/// Does the lines, each with its number, one after the other, and writes what each writes before the next is begun. It
/// ends with the first line whose call fails.
pub fn run<T: Tree, D: Stopping, K: Sink>(
    alloc: Global,
    world: &mut World<T, D>,
    disk: &mut D,
    sink: &mut K,
    lines: &[(u64, Line)],
) -> Result<(), Halt>
    requires runnable { AreRunnable lines.now }
    requires scheduled { AreScheduled lines.now }
    requires room { world.old.opened + length lines.now < 2 ^ 64 }
    requires kept { D.tells ≡ true
        → IsKept (D.seen disk.old) (D.images disk.old (D.moment disk.old)) world.old.hosting.server }
    requires rests { D.tells ≡ true → D.stops ≡ true → Rests D.seen D.stopped D.leaves disk.old }
    requires read { D.tells ≡ true → D.stops ≡ true
        → AllRead (world_on D.seen D.armed D.way world.old disk.old) (lines_of lines.now) }

    // What is written, and the world after, are the model's; each line has its moments of the inner disk.
    ensures runs { D.tells ≡ true → D.stops ≡ true → Runs result (D.inner_images disk.new)
        (world_on D.seen D.armed D.way world.old disk.old) (lines_of lines.now)
        (K.written sink.old) (K.written sink.new) (D.inner_moment disk.old) (D.inner_moment disk.new)
        (world_on D.seen D.armed D.way world.new disk.new) }
    ensures kept { D.tells ≡ true → OnOk result
        (IsKept (D.seen disk.new) (D.images disk.new (D.moment disk.new)) world.new.hosting.server) }
    ensures rests { D.tells ≡ true → D.stops ≡ true → OnOk result (Rests D.seen D.stopped D.leaves disk.new) }
    ensures causes { HasCauses D.faults D.inner_faults K.faults disk.old disk.new sink.old sink.new result }
    ensures whole { D.tells ≡ true → IfErr result IsWhole }
{
    play_all(alloc, world, disk, sink, lines)
}

/// A run in the room of the disk's first two files: its server recovers them, and then the lines are done. The disk
/// holds nothing back and isn't armed.
pub fn replay<T: Tree, D: Stopping, K: Sink>(
    alloc: Global,
    disk: &mut D,
    sink: &mut K,
    lines: &[(u64, Line)],
) -> Result<(), Halt>
    requires plain { D.plain disk.old }
    requires scheduled { AreScheduled lines.now }
    requires lines { AreLines (lines_of lines.now) }

    // Where the files stand for a state, what is written is the model's report from there, and each line has its
    // moments.
    ensures replays { D.tells ≡ true → D.stops ≡ true → (s : State) → Stands s (room_files (D.inner_seen disk.old))
        → Replays result (D.inner_images disk.new) s (lines_of lines.now) (K.written sink.old) (K.written sink.new)
        (D.inner_moment disk.old) (D.inner_moment disk.new) }
    // Where it is done they stood for one. Where a file is found damaged, the opening found it so, and nothing was
    // written.
    ensures stood { D.tells ≡ true
        → OnOk result ((s : State) × Stands s (room_files (D.inner_seen disk.old))) }
    ensures files { D.tells ≡ true → IfErr result (λ e. ((s : State) × Stands s (room_files (D.inner_seen disk.old)))
        ⊎ (IsOfFiles (room_files (D.inner_seen disk.old)) e × Appends (K.written sink.old) (K.written sink.new) [])) }
    ensures whole { D.tells ≡ true → (s : State) → Stands s (room_files (D.inner_seen disk.old))
        → IfErr result IsWhole }
    ensures causes { HasCauses D.faults D.inner_faults K.faults disk.old disk.new sink.old sink.new result }
{
    let mut world: World<T, D> = match World::new(alloc, disk) {
        Ok(world) => world,
        Err(fault) => return Err(halt_of(fault)),
    };
    play_all(alloc, &mut world, disk, sink, lines)
}
