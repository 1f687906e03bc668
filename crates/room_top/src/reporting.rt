//! A text is read as a schedule, and runs.
ghost use Rattle.std.specs.Prelude.{◌≡◌, ◌⊎◌, ◌≤◌, ℕ, length, take, true, IfOk, IfErr};
ghost use Rattle.std.specs.Io.KnownBytes.{Appends};
ghost use Rattle.room_edge.specs.Causes.{Rose};
ghost use Rattle.room_host.specs.Seen.{room_files};
ghost use Rattle.room_laws.specs.Validity.{AreLines};
ghost use Rattle.room_log.specs.Log.{State};
ghost use Rattle.room_replay.specs.Files.{Files, Stands};
ghost use Rattle.room_script.specs.Forms.{AreScheduled};
ghost use Rattle.room_script.specs.Forms.{lines_of as told_lines};
ghost use Rattle.room_top.specs.Commands.{Runs, task_in, lines_of};
ghost use Rattle.room_top.specs.Ending.{Ends};
ghost use Rattle.room_top.specs.Outcome.{outcome_of, damaged_line};
ghost use Rattle.room_top.specs.Recovery.{Recovers};
ghost use Rattle.room_top.specs.Refusing.{IsRefusal, Refuses};

use crate::texts::{bad_line, damaged_line, told};
use room_disk::Disk;
use room_edge::Sink;
use room_fuse::{Fused, Stopping};
use room_run::{Halt, replay};
use room_script::{Line, Schedule, ScriptFault, read_schedule};
use room_tree::Tree;
use std::alloc::Global;

/// Why a text runs no line.
#[derive(Clone, Copy, Debug, PartialEq, Eq)]
enum Refusal {
    Memory,
    TooLong,
    BadLine(u64),
}

fn read_task(alloc: Global, input: &[u8]) -> Result<Schedule, Refusal>
    ensures task { IfOk result (λ ls. task_in input.now ≡ Runs (told_lines ls)) }
    ensures scheduled { IfOk result AreScheduled }
    ensures lines { IfOk result (λ ls. AreLines (told_lines ls)) }
    ensures short { IfOk result (λ ls. length input.now ≤ 16777216) }
    ensures refusal { IfErr result (IsRefusal (task_in input.now)) }
{
    if input.len() > 16777216 {
        return Err(Refusal::TooLong);
    }
    match read_schedule(alloc, input) {
        Ok(lines) => Ok(lines),
        Err(ScriptFault::Memory) => Err(Refusal::Memory),
        Err(ScriptFault::BadLine(number)) => Err(Refusal::BadLine(number)),
    }
}

/// Tells why a text runs no line.
fn refuse<K: Sink>(alloc: Global, refusal: Refusal, sink: &mut K) -> u8
    ensures refuses { (fs : Files) → Refuses refusal fs (K.written sink.old) (K.written sink.new) result }
    ensures cause { result ≡ 4 → Rose (K.faults sink.old) (K.faults sink.new) }
{
    match refusal {
        Refusal::Memory => 1,
        Refusal::TooLong => told(sink, b"too long\n", 11),
        Refusal::BadLine(number) => match bad_line(alloc, number) {
            Ok(line) => told(sink, line.as_bytes(), 6),
            Err(_) => 1,
        },
    }
}

/// Tells of a damaged file.
pub(crate) fn tell_damage<K: Sink>(alloc: Global, file: u32, at: u64, sink: &mut K) -> u8
    ensures which { (result ≡ 7) ⊎ (result ≡ 1) ⊎ (result ≡ 4) }
    ensures all { result ≡ 7 → Appends (K.written sink.old) (K.written sink.new) (damaged_line file at) }
    ensures part { (n : ℕ) × Appends (K.written sink.old) (K.written sink.new) (take n (damaged_line file at)) }
    ensures cause { result ≡ 4 → Rose (K.faults sink.old) (K.faults sink.new) }
{
    match damaged_line(alloc, file, at) {
        Ok(line) => told(sink, line.as_bytes(), 7),
        Err(_) => 1,
    }
}

/// Runs the lines in the room of the disk's files, and writes the report.
fn play<T: Tree, K: Sink, D: Disk>(
    alloc: Global,
    lines: &[(u64, Line)],
    sink: &mut K,
    disk: &mut Fused<D>,
) -> u8
    requires plain { ⟦<Fused<D> as Stopping>⟧.plain disk.old }
    requires scheduled { AreScheduled lines.now }
    requires lines { AreLines (told_lines lines.now) }

    ensures which { (result ≡ 0) ⊎ (result ≡ 1) ⊎ (result ≡ 4) ⊎ (result ≡ 5) ⊎ (result ≡ 7) }
    ensures ends { D.tells ≡ true → Ends (room_files (D.seen disk.old.inner)) (Runs (told_lines lines.now))
        (outcome_of (room_files (D.seen disk.old.inner)) (Runs (told_lines lines.now))) ⊥
        (K.written sink.old) (K.written sink.new) result }
    ensures recovers { D.tells ≡ true → (s : State) → Stands s (room_files (D.seen disk.old.inner))
        → Recovers (D.images disk.new.inner) (D.seen disk.new.inner) s (told_lines lines.now)
        (Rose (D.faults disk.old.inner) (D.faults disk.new.inner)) (D.moment disk.old.inner) (D.moment disk.new.inner)
        result }
    ensures sink_fault { result ≡ 4 → Rose (K.faults sink.old) (K.faults sink.new) }
    ensures disk_fault { result ≡ 5 → Rose (D.faults disk.old.inner) (D.faults disk.new.inner) }
{
    match replay::<T, Fused<D>, K>(alloc, disk, sink, lines) {
        Ok(()) => 0,
        Err(Halt::Memory) => 1,
        Err(Halt::Sink) => 4,
        Err(Halt::Disk) => told(sink, b"disk fault\n", 5),
        Err(Halt::Damaged(file, at)) => tell_damage(alloc, file, at, sink),
    }
}

/// Reads a text as a schedule, runs it in the room of the disk's files, and writes the report. A text that is too long, or
/// has a bad line, opens nothing.
pub(crate) fn report<T: Tree, K: Sink, D: Disk>(
    alloc: Global,
    input: &[u8],
    sink: &mut K,
    disk: &mut Fused<D>,
) -> u8
    requires plain { ⟦<Fused<D> as Stopping>⟧.plain disk.old }

    ensures which { (result ≡ 0) ⊎ (result ≡ 1) ⊎ (result ≡ 4) ⊎ (result ≡ 5) ⊎ (result ≡ 6) ⊎ (result ≡ 7)
        ⊎ (result ≡ 11) }
    ensures ends { D.tells ≡ true → Ends (room_files (D.seen disk.old.inner)) (task_in input.now)
        (outcome_of (room_files (D.seen disk.old.inner)) (task_in input.now)) ⊥
        (K.written sink.old) (K.written sink.new) result }
    ensures refused { (result ≡ 6) ⊎ (result ≡ 11) → (fs : Files) → (result ≡ (outcome_of fs (task_in input.now)).status)
        × Appends (K.written sink.old) (K.written sink.new) (outcome_of fs (task_in input.now)).text }
    ensures untouched { (result ≡ 6) ⊎ (result ≡ 11) → disk.new ≡ disk.old }
    ensures short { (result ≡ 0) ⊎ (result ≡ 5) ⊎ (result ≡ 6) ⊎ (result ≡ 7) → length input.now ≤ 16777216 }
    ensures recovers { D.tells ≡ true → (s : State) → Stands s (room_files (D.seen disk.old.inner))
        → Recovers (D.images disk.new.inner) (D.seen disk.new.inner) s (lines_of (task_in input.now))
        (Rose (D.faults disk.old.inner) (D.faults disk.new.inner)) (D.moment disk.old.inner) (D.moment disk.new.inner)
        result }
    ensures sink_fault { result ≡ 4 → Rose (K.faults sink.old) (K.faults sink.new) }
    ensures disk_fault { result ≡ 5 → Rose (D.faults disk.old.inner) (D.faults disk.new.inner) }
{
    match read_task(alloc, input) {
        Ok(lines) => play::<T, K, D>(alloc, lines.as_slice(), sink, disk),
        Err(refusal) => refuse(alloc, refusal, sink),
    }
}
