//! What is written beside a report, and the status that it gives.
ghost use Rattle.std.specs.Prelude.{◌≡◌, ◌⊎◌, ◌≤◌, ℕ, length, take, IfOk};
ghost use Rattle.std.specs.Io.KnownBytes.{Appends};
ghost use Rattle.room_edge.specs.Causes.{Rose};
ghost use Rattle.room_log.specs.Log.{State};
ghost use Rattle.room_top.specs.Outcome.{bad_line, damaged_line, room_line};

use room_edge::{Sink, SinkFault};
use room_ids::push_number;
use room_items::view;
use room_json::{NoMemory, Text, write};
use room_run::write_whole;
use room_tree::Tree;
use std::alloc::Global;

/// Writes a text and answers the status, or that of a failed write.
pub(crate) fn told<K: Sink>(sink: &mut K, text: &[u8], status: u8) -> u8
    ensures which { (result ≡ status) ⊎ (result ≡ 1) ⊎ (result ≡ 4) }
    ensures all { (result ≡ 1 → ⊥) → (result ≡ 4 → ⊥)
        → Appends (K.written sink.old) (K.written sink.new) text.now }
    ensures part { (n : ℕ) × Appends (K.written sink.old) (K.written sink.new) (take n text.now) }
    ensures cause { (status ≡ 4 → ⊥) → result ≡ 4 → Rose (K.faults sink.old) (K.faults sink.new) }
{
    match write_whole(sink, text) {
        Ok(()) => status,
        Err(SinkFault::Memory) => 1,
        Err(SinkFault::Failed) => 4,
    }
}

/// The line of a line outside the grammar.
pub(crate) fn bad_line(alloc: Global, number: u64) -> Result<Text, NoMemory>
    ensures { IfOk result (λ t. t ≡ bad_line number) }
{
    let mut line = Text::from_str(alloc, "bad line ")?;
    push_number(alloc, &mut line, number)?;
    line.push_str("\n")?;
    Ok(line)
}

/// The line of a file that is damaged at an offset.
pub(crate) fn damaged_line(alloc: Global, file: u32, at: u64) -> Result<Text, NoMemory>
    ensures { IfOk result (λ t. t ≡ damaged_line file at) }
{
    let mut line = Text::from_str(alloc, "damaged ")?;
    push_number(alloc, &mut line, file as u64)?;
    line.push_str(" ")?;
    push_number(alloc, &mut line, at)?;
    line.push_str("\n")?;
    Ok(line)
}

/// The line of a room.
pub(crate) fn room_line<T: Tree>(
    alloc: Global,
    count: u64,
    sessions: u64,
    tree: &T,
) -> Result<Text, NoMemory>
    ensures { (s : State) → s.count ≡ count → length s.sessions ≡ sessions → s.tree ≡ T.nodes tree.now
        → IfOk result (λ t. t ≡ room_line s) }
{
    let mut line = Text::from_str(alloc, "room n ")?;
    push_number(alloc, &mut line, count)?;
    line.push_str(" sessions ")?;
    push_number(alloc, &mut line, sessions)?;
    line.push_str(" ")?;
    let shown = view(alloc, tree)?;
    let text = write(alloc, &shown)?;
    line.push_str(text.as_str())?;
    line.push_str("\n")?;
    Ok(line)
}
