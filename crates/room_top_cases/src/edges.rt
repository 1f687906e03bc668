//! A source and a sink that take a piece at each call, and of which one call can fail.
ghost use Rattle.std.specs.Prelude.{◌≡◌, ◌<◌, ◌≤◌, None, length, IfOk, IfErr};
ghost use Rattle.std.specs.Io.{ReadsAtMost, WritesAtMost};
ghost use Rattle.std.specs.Io.KnownBytes.{ReadConsumes, WriteAppends};
ghost use Rattle.room_edge.specs.Causes.{HasCause, Rose};

use room_edge::{Failed, Sink, SinkFault, Source};
use std::alloc::Global;

/// How many bytes a call moves at most, and which call is to fail; the 0th is none.
#[derive(Clone, Copy, Debug)]
pub(crate) struct Way {
    pub(crate) piece: usize,
    pub(crate) fails: u64,
}

/// A way in which no call fails.
pub(crate) const WHOLE: Way = Way {
    piece: 65536,
    fails: 0,
};

/// A source over bytes.
#[derive(Drop)]
pub(crate) struct Pieces {
    bytes: Vec<u8>,
    at: usize,
    way: Way,
    calls: u64,
    faults: u64,
}

impl Pieces {
    pub(crate) fn new(bytes: Vec<u8>, way: Way) -> Pieces {
        Pieces {
            bytes,
            at: 0,
            way,
            calls: 0,
            faults: 0,
        }
    }
}

/// Copies what both have room for, and answers how many bytes.
fn copy(from: &[u8], into: &mut [u8], most: usize) -> usize
    ensures fits { result ≤ length into.new }
{
    let count = from.len().min(into.len()).min(most);
    into[..count].copy_from_slice(&from[..count]);
    count
}

impl Source for Pieces {
    ghost left = { λ _. None };

    ghost faults = { λ s. s.faults };

    fn read(&mut self, into: &mut [u8]) -> Result<usize, Failed> {
        self.calls = self.calls.saturating_add(1);
        if self.calls == self.way.fails {
            self.faults = self.faults.saturating_add(1);
            return Err(Failed);
        }
        let left = self.bytes.get(self.at..).unwrap_or(&[]);
        let count = copy(left, into, self.way.piece);
        self.at = self.at.saturating_add(count);
        Ok(count)
    }
}

/// A sink that keeps what it takes.
#[derive(Drop)]
pub(crate) struct Taken {
    bytes: Vec<u8>,
    way: Way,
    calls: u64,
    faults: u64,
}

impl Taken {
    pub(crate) fn new(alloc: Global, way: Way) -> Taken {
        Taken {
            bytes: Vec::new(alloc),
            way,
            calls: 0,
            faults: 0,
        }
    }

    /// All that it took.
    pub(crate) fn bytes(&self) -> &[u8] {
        self.bytes.as_slice()
    }
}

impl Sink for Taken {
    ghost written = { λ _. None };

    ghost faults = { λ s. s.faults };

    fn write(&mut self, piece: &[u8]) -> Result<usize, SinkFault> {
        self.calls = self.calls.saturating_add(1);
        if self.calls == self.way.fails {
            self.faults = self.faults.saturating_add(1);
            return Err(SinkFault::Failed);
        }
        let count = piece.len().min(self.way.piece.max(1));
        if self.bytes.extend_from_slice(&piece[..count]).is_err() {
            return Err(SinkFault::Memory);
        }
        Ok(count)
    }
}
