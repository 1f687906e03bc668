//! A source and a sink in memory that never fail.
ghost use Rattle.std.specs.Prelude.{◌≡◌, ◌<◌, ◌≤◌, ◌++◌, Some, [], drop, length, IfOk, IfErr, IsOk, OnOk, OnErr};
ghost use Rattle.std.specs.Io.{ReadsAtMost, WritesAtMost};
ghost use Rattle.std.specs.Io.KnownBytes.{ReadConsumes, WriteAppends};

use crate::edge::{Failed, Sink, SinkFault, Source};
use crate::sink::append;
use crate::source::take_from;
use room_json::Bytes;
use std::alloc::Global;
use std::marker::Model;

/// A source over bytes in memory that never fails.
#[derive(Drop)]
pub struct SureSource {
    bytes: Bytes,
    at: usize,
}

impl Model for SureSource {
    ghost use Rattle.std.specs.Prelude.{List, ℕ, drop};

    ghost Value = { List ℕ };

    ghost view = { λ s. drop s.at s.bytes };
}

impl SureSource {
    /// A source over these bytes.
    pub fn new(bytes: Bytes) -> SureSource
        ensures { result ≡ bytes }
    {
        SureSource { bytes, at: 0 }
    }
}

impl Source for SureSource {
    ghost left = { λ s. Some s };

    ghost faults = { λ _. 0 };

    fn read(&mut self, into: &mut [u8]) -> Result<usize, Failed>
        requires { 0 < length into.old }
        ensures bound { ReadsAtMost result into.new }
        ensures bytes { ReadConsumes (Some self.old) (Some self.new) result into.new }
        ensures sure { IsOk result }
        ensures new { self.new ≡ drop (length into.old) self.old }
    {
        let taken = take_from(self.bytes.as_slice(), self.at, into);
        self.at += taken;
        Ok(taken)
    }
}

/// A sink that keeps what it is given and never fails.
#[derive(Drop)]
pub struct SureSink {
    alloc: Global,
    bytes: Bytes,
}

impl Model for SureSink {
    ghost use Rattle.std.specs.Prelude.{List, ℕ};

    ghost Value = { List ℕ };

    ghost view = { λ s. s.bytes };
}

impl SureSink {
    /// An empty sink.
    pub fn new(alloc: Global) -> SureSink
        ensures { result ≡ [] }
    {
        SureSink {
            alloc,
            bytes: Bytes::new(alloc),
        }
    }

    /// All that was written.
    pub fn written(&self) -> &Bytes
        ensures { result.now ≡ self.now }
    {
        &self.bytes
    }
}

impl Sink for SureSink {
    ghost written = { λ s. Some s };

    ghost faults = { λ _. 0 };

    fn write(&mut self, piece: &[u8]) -> Result<usize, SinkFault>
        ensures bound { WritesAtMost result piece.now }
        ensures some { 0 < length piece.now → IfOk result (λ n. 0 < n) }
        ensures bytes { WriteAppends (Some self.old) (Some self.new) result piece.now }
        ensures sure { IfErr result (λ e. e ≡ SinkFault.Memory) }
        ensures empty { length piece.now ≡ 0 → IsOk result }
        ensures whole { IfOk result (λ n. n ≡ length piece.now) }
        ensures ok { OnOk result (self.new ≡ self.old ++ piece.now) }
        ensures err { OnErr result (self.new ≡ self.old) }
    {
        append(self.alloc, &mut self.bytes, piece)?;
        Ok(piece.len())
    }
}
