//! The commands that run a schedule: one that is read, and one that is made.
ghost use Rattle.std.specs.Prelude.{◌≡◌, ◌⊎◌, ◌≤◌, ℕ, List, Some, true};
ghost use Rattle.std.specs.Io.KnownBytes.{Appends, IsAtEnd};
ghost use Rattle.room_edge.specs.Causes.{Rose};
ghost use Rattle.room_host.specs.Seen.{room_files};
ghost use Rattle.room_log.specs.Log.{State};
ghost use Rattle.room_replay.specs.Files.{Files, Stands};
ghost use Rattle.room_script.specs.Generator.{schedule_of};
ghost use Rattle.room_top.specs.Commands.{task_in, lines_of};
ghost use Rattle.room_top.specs.Ending.{Ends};
ghost use Rattle.room_top.specs.Outcome.{outcome_of, read_fault, TakesAtMost};
ghost use Rattle.room_top.specs.Recovery.{Recovers};

use crate::input::{ReadFault, read_all};
use crate::reporting::report;
use crate::texts::told;
use room_disk::Disk;
use room_edge::{Sink, Source};
use room_fuse::{Fused, Stopping};
use room_script::schedule_of;
use room_tree::Tree;
use std::alloc::Global;

/// Reads a schedule to its end, and then runs it.
pub(crate) fn replay<T: Tree, S: Source, K: Sink, D: Disk>(
    alloc: Global,
    source: &mut S,
    sink: &mut K,
    disk: &mut Fused<D>,
) -> u8
    requires plain { ⟦<Fused<D> as Stopping>⟧.plain disk.old }

    ensures which { (result ≡ 0) ⊎ (result ≡ 1) ⊎ (result ≡ 3) ⊎ (result ≡ 4) ⊎ (result ≡ 5) ⊎ (result ≡ 6)
        ⊎ (result ≡ 7) ⊎ (result ≡ 11) }
    ensures ends { D.tells ≡ true → (input : List ℕ) → S.left source.old ≡ Some input
        → Ends (room_files (D.seen disk.old.inner)) (task_in input)
        (outcome_of (room_files (D.seen disk.old.inner)) (task_in input))
        (Rose (S.faults source.old) (S.faults source.new)) (K.written sink.old) (K.written sink.new) result }
    ensures refused { (result ≡ 6) ⊎ (result ≡ 11) → (input : List ℕ) → S.left source.old ≡ Some input → (fs : Files)
        → (result ≡ (outcome_of fs (task_in input)).status)
        × Appends (K.written sink.old) (K.written sink.new) (outcome_of fs (task_in input)).text }
    ensures untouched { (result ≡ 3) ⊎ (result ≡ 6) ⊎ (result ≡ 11) → disk.new ≡ disk.old }
    ensures recovers { D.tells ≡ true → (input : List ℕ) → S.left source.old ≡ Some input
        → (s : State) → Stands s (room_files (D.seen disk.old.inner))
        → Recovers (D.images disk.new.inner) (D.seen disk.new.inner) s (lines_of (task_in input))
        (Rose (D.faults disk.old.inner) (D.faults disk.new.inner)) (D.moment disk.old.inner) (D.moment disk.new.inner)
        result }
    ensures end { (result ≡ 0) ⊎ (result ≡ 5) ⊎ (result ≡ 6) ⊎ (result ≡ 7) → IsAtEnd (S.left source.new) }
    ensures limit { TakesAtMost 16777217 (S.left source.old) (S.left source.new) }
    ensures source_fault { result ≡ 3 → Rose (S.faults source.old) (S.faults source.new)
        × Appends (K.written sink.old) (K.written sink.new) read_fault }
    ensures sink_fault { result ≡ 4 → Rose (K.faults sink.old) (K.faults sink.new) }
    ensures disk_fault { result ≡ 5 → Rose (D.faults disk.old.inner) (D.faults disk.new.inner) }
{
    match read_all(alloc, source) {
        Ok(input) => report::<T, K, D>(alloc, input.as_slice(), sink, disk),
        Err(ReadFault::Memory) => 1,
        Err(ReadFault::Failed) => told(sink, b"read fault\n", 3),
    }
}

/// Runs the schedule of a number and a count.
pub(crate) fn generate<T: Tree, K: Sink, D: Disk>(
    alloc: Global,
    number: u64,
    count: u64,
    sink: &mut K,
    disk: &mut Fused<D>,
) -> u8
    requires plain { ⟦<Fused<D> as Stopping>⟧.plain disk.old }

    ensures which { (result ≡ 0) ⊎ (result ≡ 1) ⊎ (result ≡ 4) ⊎ (result ≡ 5) ⊎ (result ≡ 6) ⊎ (result ≡ 7)
        ⊎ (result ≡ 11) }
    ensures ends { D.tells ≡ true → Ends (room_files (D.seen disk.old.inner)) (task_in (schedule_of number count))
        (outcome_of (room_files (D.seen disk.old.inner)) (task_in (schedule_of number count))) ⊥
        (K.written sink.old) (K.written sink.new) result }
    ensures refused { (result ≡ 6) ⊎ (result ≡ 11) → (fs : Files)
        → (result ≡ (outcome_of fs (task_in (schedule_of number count))).status)
        × Appends (K.written sink.old) (K.written sink.new) (outcome_of fs (task_in (schedule_of number count))).text }
    ensures untouched { (result ≡ 6) ⊎ (result ≡ 11) → disk.new ≡ disk.old }
    ensures recovers { D.tells ≡ true → (s : State) → Stands s (room_files (D.seen disk.old.inner))
        → Recovers (D.images disk.new.inner) (D.seen disk.new.inner) s (lines_of (task_in (schedule_of number count)))
        (Rose (D.faults disk.old.inner) (D.faults disk.new.inner)) (D.moment disk.old.inner) (D.moment disk.new.inner)
        result }
    ensures sink_fault { result ≡ 4 → Rose (K.faults sink.old) (K.faults sink.new) }
    ensures disk_fault { result ≡ 5 → Rose (D.faults disk.old.inner) (D.faults disk.new.inner) }
{
    match schedule_of(alloc, number, count) {
        Ok(schedule) => report::<T, K, D>(alloc, schedule.as_slice(), sink, disk),
        Err(_) => 1,
    }
}
