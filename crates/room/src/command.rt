//! The command on the words of a call, whether they were read or not.
ghost use Rattle.std.specs.Prelude.{◌≡◌, ◌↔◌, IsTrue, None};
ghost use Rattle.std.specs.IoError.{error_kind};
ghost use Rattle.std.specs.Process.{exit_status};
ghost use Rattle.room_edge.specs.Causes.{Rose};
ghost use Rattle.room_replay.specs.Files.{New};
ghost use Rattle.room_top.specs.Commands.{command_in, Reads};
ghost use Rattle.room_top.specs.Ending.{EndsAs, IsComplete};
ghost use Rattle.room_top.specs.Wanting.{folder_in};
ghost use Rattle.room.specs.Words.{words_of, Answers, IsOutOfMemory};

use room_disk::SureDisk;
use room_edge::{Sink, Source};
use room_fuse::Fused;
use room_real::Folder;
use room_top::{Wants, run, wants};
use room_tree::Tree;
use std::alloc::Global;
use std::fs::File;
use std::io;
use std::io::ErrorKind;
use std::process::ExitCode;
use std::rt::Files;

/// Whether memory ran out.
fn is_out_of_memory(error: &io::Error) -> bool
    ensures { IsTrue result ↔ error_kind error.now ≡ ErrorKind.OutOfMemory }
{
    error.kind() == ErrorKind::OutOfMemory
}

/// Runs words that name no folder, on an empty disk in memory, which ends with the run.
fn run_in_memory<T: Tree, S: Source, K: Sink>(
    alloc: Global,
    words: &[String],
    source: &mut S,
    sink: &mut K,
) -> u8
    ensures answers { Answers words.now (S.left source.old) (S.left source.new) (K.written sink.old)
        (K.written sink.new) (S.faults source.old) (S.faults source.new) (K.faults sink.old) (K.faults sink.new) result }
    ensures unread { (Reads (command_in words.now) → ⊥) → source.new ≡ source.old }
    ensures ends { EndsAs (command_in words.now) New (Rose (S.faults source.old) (S.faults source.new))
        (S.left source.old) (K.written sink.old) (K.written sink.new) result }
    ensures complete { (Rose (S.faults source.old) (S.faults source.new) → ⊥)
        → (Rose (K.faults sink.old) (K.faults sink.new) → ⊥)
        → IsComplete (command_in words.now) New (S.left source.old) result }
{
    let mut disk = Fused::new(alloc, SureDisk::new(alloc));
    run::<T, S, K, SureDisk>(alloc, words, source, sink, &mut disk)
}

/// Runs words on the folder that they name.
fn run_in_folder<T: Tree, S: Source, K: Sink, R: Files<File = File> + Drop>(
    alloc: Global,
    folder: Folder<R>,
    words: &[String],
    source: &mut S,
    sink: &mut K,
) -> u8
    ensures answers { Answers words.now (S.left source.old) (S.left source.new) (K.written sink.old)
        (K.written sink.new) (S.faults source.old) (S.faults source.new) (K.faults sink.old) (K.faults sink.new) result }
    ensures unread { (Reads (command_in words.now) → ⊥) → source.new ≡ source.old }
{
    let mut disk = Fused::new(alloc, folder);
    run::<T, S, K, Folder<R>>(alloc, words, source, sink, &mut disk)
}

/// Runs words on what they want; the status is 1, with nothing read or written, where memory is wanting for that.
fn run_on<T: Tree, S: Source, K: Sink, R: Files<File = File> + Drop>(
    alloc: Global,
    system: R,
    words: &[String],
    source: &mut S,
    sink: &mut K,
) -> u8
    ensures answers { Answers words.now (S.left source.old) (S.left source.new) (K.written sink.old)
        (K.written sink.new) (S.faults source.old) (S.faults source.new) (K.faults sink.old) (K.faults sink.new) result }
    ensures unread { (Reads (command_in words.now) → ⊥) → source.new ≡ source.old }
    ensures ends { folder_in words.now ≡ None → EndsAs (command_in words.now) New (Rose (S.faults source.old) (S.faults source.new))
        (S.left source.old) (K.written sink.old) (K.written sink.new) result }
    ensures complete { folder_in words.now ≡ None → (Rose (S.faults source.old) (S.faults source.new) → ⊥)
        → (Rose (K.faults sink.old) (K.faults sink.new) → ⊥)
        → IsComplete (command_in words.now) New (S.left source.old) result }
{
    match wants(alloc, words) {
        Ok(wants) => {
            let Wants { folder, .. } = wants;
            match folder {
                Some(path) => {
                    let folder = Folder::new(alloc, system, path);
                    run_in_folder::<T, S, K, R>(alloc, folder, words, source, sink)
                }
                None => run_in_memory::<T, S, K>(alloc, words, source, sink),
            }
        }
        Err(_) => 1,
    }
}

/// Runs the words of a call on what they want, and answers the code that the process is to end with: the status of `run`.
///
/// Where memory ran out as the words were read it is 1, and nothing is read or written. Words that were not read for another
/// cause are no command.
pub(crate) fn start<T: Tree, S: Source, K: Sink, R: Files<File = File> + Drop>(
    alloc: Global,
    system: R,
    words: io::Result<Vec<String>>,
    source: &mut S,
    sink: &mut K,
) -> ExitCode
    ensures memory { IsOutOfMemory words → exit_status result ≡ 1 }
    ensures unstarted { IsOutOfMemory words → (source.new ≡ source.old) × (sink.new ≡ sink.old) }
    ensures answers { Answers (words_of words) (S.left source.old) (S.left source.new) (K.written sink.old)
        (K.written sink.new) (S.faults source.old) (S.faults source.new) (K.faults sink.old) (K.faults sink.new) (exit_status result) }
    ensures unread { (Reads (command_in (words_of words)) → ⊥) → source.new ≡ source.old }
    ensures ends { (IsOutOfMemory words → ⊥) → folder_in (words_of words) ≡ None → EndsAs (command_in (words_of words)) New (Rose (S.faults source.old) (S.faults source.new))
        (S.left source.old) (K.written sink.old) (K.written sink.new) (exit_status result) }
    ensures complete { (IsOutOfMemory words → ⊥) → folder_in (words_of words) ≡ None → (Rose (S.faults source.old) (S.faults source.new) → ⊥)
        → (Rose (K.faults sink.old) (K.faults sink.new) → ⊥)
        → IsComplete (command_in (words_of words)) New (S.left source.old) (exit_status result) }
{
    let words = match words {
        Ok(words) => words,
        Err(error) if is_out_of_memory(&error) => return ExitCode::from(1),
        // as where they are not UTF-8
        Err(_) => Vec::new(alloc),
    };
    ExitCode::from(run_on::<T, S, K, R>(alloc, system, words.as_slice(), source, sink))
}
