//! What is written.
ghost use Rattle.std.specs.Io.KnownBytes.{Appends};
ghost use Rattle.std.specs.Prelude.{◌≡◌, ◌≤◌, ℕ, take, IfOk, IfErr, OnOk, OnErr, IsErrOf};
ghost use Rattle.room_edge.specs.Causes.{Rose};
ghost use Rattle.room_model.specs.Run.{text_of_lines};
ghost use Rattle.room_run.specs.Halting.{IsOfDisk};

use crate::halt::{Halt, halt_of_sink};
use room_edge::{Sink, SinkFault};
use room_json::{Names, NoMemory};
use std::alloc::Global;

/// Writes the whole piece, or a first part of it.
pub fn write_whole<K: Sink>(sink: &mut K, piece: &[u8]) -> Result<(), SinkFault>
    ensures ok { OnOk result (Appends (K.written sink.old) (K.written sink.new) piece.now) }
    ensures err { OnErr result ((n : ℕ) × Appends (K.written sink.old) (K.written sink.new) (take n piece.now)) }
    ensures later { K.faults sink.old ≤ K.faults sink.new }
    ensures cause { IsErrOf result SinkFault.Failed → Rose (K.faults sink.old) (K.faults sink.new) }
{
    let mut at = 0;
    while at < piece.len() {
        match sink.write(&piece[at..]) {
            Ok(count) => at += count,
            Err(fault) => return Err(fault),
        }
    }
    Ok(())
}

/// The lines, each ended by a line feed.
fn text_of(alloc: Global, lines: Names) -> Result<Vec<u8>, NoMemory>
    ensures { IfOk result (λ v. v.items ≡ text_of_lines lines) }
{
    let mut text = Vec::new(alloc);
    for line in lines.into_vec() {
        text.extend_from_slice(line.as_bytes())?;
        text.push(b'\n')?;
    }
    Ok(text)
}

/// Writes the lines of a report.
pub(crate) fn tell<K: Sink>(alloc: Global, sink: &mut K, lines: Names) -> Result<(), Halt>
    ensures ok { OnOk result (Appends (K.written sink.old) (K.written sink.new) (text_of_lines lines)) }
    ensures err { OnErr result ((n : ℕ) × Appends (K.written sink.old) (K.written sink.new)
        (take n (text_of_lines lines))) }
    ensures apart { IfErr result (λ e. IsOfDisk e → ⊥) }
    ensures later { K.faults sink.old ≤ K.faults sink.new }
    ensures cause { IsErrOf result Halt.Sink → Rose (K.faults sink.old) (K.faults sink.new) }
{
    let text = text_of(alloc, lines)?;
    match write_whole(sink, text.as_slice()) {
        Ok(()) => Ok(()),
        Err(fault) => Err(halt_of_sink(fault)),
    }
}
