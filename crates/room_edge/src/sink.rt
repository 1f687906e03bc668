//! A sink in memory.
ghost use Rattle.std.specs.Prelude.{◌≡◌, ◌<◌, ◌≤◌, ◌++◌, Some, [], length, true, false, IsOk, IfOk, IfErr, OnOk, OnErr};
ghost use Rattle.std.specs.Io.{WritesAtMost};
ghost use Rattle.std.specs.Io.KnownBytes.{WriteAppends};
ghost use Rattle.room_edge.specs.Causes.{Rose};
ghost use Rattle.room_edge.specs.Memory.{no_calls, is_to_fail, after_write, after_refusal};

use crate::calls::Calls;
use crate::edge::{Sink, SinkFault};
use room_json::{Bytes, NoMemory};
use std::alloc::Global;
use std::marker::Model;
use std::mem;

/// A sink that keeps what it is given, some of whose calls fail.
#[derive(Drop)]
pub struct MemSink {
    alloc: Global,
    bytes: Bytes,
    calls: Calls,
}

impl Model for MemSink {
    ghost use Rattle.room_edge.specs.Memory.{Writing};

    ghost Value = { Writing };

    ghost view = { λ s. record { written = s.bytes; calls = s.calls } };
}

impl MemSink {
    /// An empty sink; a number k in `fails` lets the k-th call fail, counted from 1.
    pub fn new(alloc: Global, fails: Vec<u64>) -> MemSink
        ensures { result ≡ record { written = []; calls = no_calls fails.items } }
    {
        MemSink {
            alloc,
            bytes: Bytes::new(alloc),
            calls: Calls::new(fails),
        }
    }

    /// All that was written.
    pub fn written(&self) -> &Bytes
        ensures { result.now ≡ self.now.written }
    {
        &self.bytes
    }
}

impl Sink for MemSink {
    ghost written = { λ s. Some s.written };

    ghost faults = { λ s. s.calls.faults };

    fn write(&mut self, piece: &[u8]) -> Result<usize, SinkFault>
        ensures bound { WritesAtMost result piece.now }
        ensures some { 0 < length piece.now → IfOk result (λ n. 0 < n) }
        ensures bytes { WriteAppends (Some self.old.written) (Some self.new.written) result piece.now }
        ensures later { self.old.calls.faults ≤ self.new.calls.faults }
        ensures cause { IfErr result (λ e. e ≡ SinkFault.Failed → Rose self.old.calls.faults self.new.calls.faults) }
        ensures whole { IfOk result (λ n. n ≡ length piece.now) }
        ensures ok { OnOk result (self.new ≡ after_write self.old piece.now) }
        ensures sure { OnOk result (is_to_fail self.old.calls ≡ false) }
        ensures err { OnErr result (self.new ≡ after_refusal self.old) }
        ensures failed { IfErr result (λ e. e ≡ SinkFault.Failed → is_to_fail self.old.calls ≡ true) }
        ensures short { IfErr result (λ e. e ≡ SinkFault.Memory → is_to_fail self.old.calls ≡ false) }
        ensures empty { length piece.now ≡ 0 → is_to_fail self.old.calls ≡ false → IsOk result }
    {
        if self.calls.begin() {
            return Err(SinkFault::Failed);
        }
        append(self.alloc, &mut self.bytes, piece)?;
        Ok(piece.len())
    }
}

/// Appends a piece. An empty one takes no memory, and a refused call changes nothing.
pub(crate) fn append(alloc: Global, bytes: &mut Bytes, piece: &[u8]) -> Result<(), NoMemory>
    ensures ok { OnOk result (bytes.new ≡ bytes.old ++ piece.now) }
    ensures err { OnErr result (bytes.new ≡ bytes.old) }
    ensures empty { length piece.now ≡ 0 → IsOk result }
{
    let mut items = mem::replace(bytes, Bytes::new(alloc)).into_vec();
    let appended = items.extend_from_slice(piece);
    *bytes = Bytes::from_vec(items);
    appended?;
    Ok(())
}
