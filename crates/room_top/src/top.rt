//! The top call.
ghost use Rattle.std.specs.Prelude.{◌≡◌, ◌⊎◌, true, None};
ghost use Rattle.std.specs.Io.KnownBytes.{Appends, IsAtEnd};
ghost use Rattle.room_edge.specs.Causes.{Rose};
ghost use Rattle.room_host.specs.Seen.{room_files};
ghost use Rattle.room_log.specs.Log.{State};
ghost use Rattle.room_replay.specs.Files.{Files, Stands};
ghost use Rattle.room_store.specs.Consistent.{AreWritten};
ghost use Rattle.room_top.specs.Commands.{command_in, Reads, Shows};
ghost use Rattle.room_top.specs.Ending.{EndsAs, IsComplete, IsOutcome};
ghost use Rattle.room_top.specs.Outcome.{is_status, read_fault, usage, TakesAtMost};
ghost use Rattle.room_top.specs.Recovery.{HeadlineAs, RecoversAs};

use crate::commands::{generate, replay};
use crate::showing::show;
use crate::texts::told;
use room_disk::Disk;
use room_edge::{Sink, Source};
use room_fuse::{Fused, Stopping};
use room_tree::Tree;
use room_words::{Command, command_of};
use std::alloc::Global;

/// The program: does what the words behind its name say, and answers the status.
///
/// `replay [FOLDER]` reads a schedule from the source, runs it in the room of the disk's first two files, and writes the
/// report to the sink; `gen NUMBER COUNT` does so with a schedule that it makes; `show FOLDER` recovers the room and writes its
/// line. Which disk a folder is, is for the caller to say (`wants`).
///
/// Answers 0 where that was done, 1 for want of memory, 2 for words that are no command, 3 for a source that failed, 4 for a
/// sink that failed, 5 for a disk that failed, 6 for a line that is bad, 7 for files that hold no room, and 11 for an input of
/// over 16,777,216 bytes, of which one byte more is taken.
///
/// What the clauses promise is told in plain words in `docs/headline.md`.
pub fn run<T: Tree, S: Source, K: Sink, D: Disk>(
    alloc: Global,
    words: &[String],
    source: &mut S,
    sink: &mut K,
    disk: &mut Fused<D>,
) -> u8
    requires plain { ⟦<Fused<D> as Stopping>⟧.plain disk.old }

    ensures known { is_status result ≡ true }
    // The status and the bytes are those of the words, of the input and of the state that the files stand for; where the disk
    // fails they are the report of the first lines and that; whatever the status, a first part of such a text was written.
    ensures ends { D.tells ≡ true → EndsAs (command_in words.now) (room_files (D.seen disk.old.inner))
        (Rose (S.faults source.old) (S.faults source.new)) (S.left source.old) (K.written sink.old) (K.written sink.new)
        result }
    // Where nothing fails, the status is that of the outcome, or memory was wanting.
    ensures complete { D.tells ≡ true → (Rose (S.faults source.old) (S.faults source.new) → ⊥)
        → (Rose (K.faults sink.old) (K.faults sink.new) → ⊥)
        → (Rose (D.faults disk.old.inner) (D.faults disk.new.inner) → ⊥)
        → IsComplete (command_in words.now) (room_files (D.seen disk.old.inner)) (S.left source.old) result }
    // Each fault only where its count rose.
    ensures source_fault { result ≡ 3 → Rose (S.faults source.old) (S.faults source.new)
        × Appends (K.written sink.old) (K.written sink.new) read_fault }
    ensures sink_fault { result ≡ 4 → Rose (K.faults sink.old) (K.faults sink.new) }
    ensures disk_fault { result ≡ 5 → Rose (D.faults disk.old.inner) (D.faults disk.new.inner) }
    // Words that are no command, and an input that is refused, open nothing, whatever the disk tells.
    ensures usage { result ≡ 2 → (command_in words.now ≡ None)
        × Appends (K.written sink.old) (K.written sink.new) usage }
    ensures words { command_in words.now ≡ None → (result ≡ 2) ⊎ (result ≡ 1) ⊎ (result ≡ 4) }
    ensures refused { (result ≡ 6) ⊎ (result ≡ 11) → (fs : Files)
        → IsOutcome (command_in words.now) fs (S.left source.old) (K.written sink.old) (K.written sink.new) result }
    ensures untouched { (result ≡ 2) ⊎ (result ≡ 3) ⊎ (result ≡ 6) ⊎ (result ≡ 11) → disk.new ≡ disk.old }
    // A room that was shown is in the files then, in the format that is written: a new one is made.
    ensures made { D.tells ≡ true → Shows (command_in words.now) → result ≡ 0 → AreWritten 0 (D.seen disk.new.inner) }
    // The input is read to its end before anything is run, or one byte more than may be; where none is read, it stays.
    ensures end { (result ≡ 0) ⊎ (result ≡ 5) ⊎ (result ≡ 6) ⊎ (result ≡ 7) → Reads (command_in words.now)
        → IsAtEnd (S.left source.new) }
    ensures limit { TakesAtMost 16777217 (S.left source.old) (S.left source.new) }
    ensures unread { (Reads (command_in words.now) → ⊥) → source.new ≡ source.old }
    // At each moment of the handed-in disk each image stands for the state at a line, with a first part of what that line adds.
    ensures recovers { D.tells ≡ true → (s : State) → Stands s (room_files (D.seen disk.old.inner))
        → RecoversAs (command_in words.now) (S.left source.old) (D.images disk.new.inner) (D.seen disk.new.inner) s
        (Rose (D.faults disk.old.inner) (D.faults disk.new.inner)) (D.moment disk.old.inner) (D.moment disk.new.inner)
        result }
    // And at each line the log holds each batch once and what was acknowledged, clients show it, and undoing restores.
    ensures headline { D.tells ≡ true → (s : State) → Stands s (room_files (D.seen disk.old.inner))
        → HeadlineAs (command_in words.now) (S.left source.old) s }
{
    match command_of(alloc, words) {
        Ok(Some(Command::Replay { .. })) => replay::<T, S, K, D>(alloc, source, sink, disk),
        Ok(Some(Command::Gen { number, count })) => {
            generate::<T, K, D>(alloc, number, count, sink, disk)
        }
        Ok(Some(Command::Show { .. })) => show::<T, K, D>(alloc, sink, &mut disk.inner),
        Ok(_) => told(
            sink,
            b"usage: room replay|serve|client|show|gen|patch|rooms\n",
            2,
        ),
        Err(_) => 1,
    }
}
