//! Streams in memory.
use crate::args::bytes;
use crate::broken::Broken;
use crate::heads::{ANSWER, REQUEST};
use std::alloc::Global;
use std::cell::RefCell;
use std::collections::VecDeque;
use std::io;
use std::io::{ErrorKind, Read, Write};
use std::rc::Rc;

/// What was written to a stream.
pub(crate) type Written = Rc<RefCell<Vec<u8>>>;

/// A stream: a read gives the next chunk, or would block where that is empty; behind the last one is its end. So many
/// writes are taken, and each one after fails.
#[derive(Drop)]
pub(crate) struct Wire {
    chunks: VecDeque<Vec<u8>>,
    writes: u64,
    written: Written,
}

impl Wire {
    /// A stream that gives nothing yet.
    pub(crate) fn new(alloc: Global, writes: u64, written: Written) -> Wire {
        Wire {
            chunks: VecDeque::new(alloc),
            writes,
            written,
        }
    }

    /// Adds a chunk.
    pub(crate) fn push(&mut self, alloc: Global, chunk: &[u8]) -> Result<(), Broken> {
        self.chunks.push_back(Vec::from_slice(alloc, chunk)?)?;
        Ok(())
    }

    /// Adds the chunk that a word spells: hex digits, `request` or `answer`, or `-` for a read that would block.
    pub(crate) fn push_word(&mut self, alloc: Global, word: &str) -> Result<(), Broken> {
        match word {
            "request" => self.push(alloc, REQUEST),
            "answer" => self.push(alloc, ANSWER),
            "-" => self.push(alloc, b""),
            word => self.push(alloc, bytes(alloc, word)?.as_slice()),
        }
    }
}

impl Read for Wire {
    fn read(&mut self, into: &mut [u8]) -> io::Result<usize> {
        let Some(chunk) = self.chunks.pop_front() else {
            return Ok(0);
        };
        if chunk.is_empty() {
            return Err(io::Error::from(ErrorKind::WouldBlock));
        }
        let count = chunk.len().min(into.len());
        into[..count].copy_from_slice(&chunk[..count]);
        Ok(count)
    }
}

impl Write for Wire {
    fn write(&mut self, piece: &[u8]) -> io::Result<usize> {
        if self.writes == 0 {
            return Err(io::Error::from(ErrorKind::BrokenPipe));
        }
        self.writes -= 1;
        let Ok(mut written) = self.written.try_borrow_mut() else {
            return Err(io::Error::from(ErrorKind::Other));
        };
        written.extend_from_slice(piece)?;
        Ok(piece.len())
    }

    fn flush(&mut self) -> io::Result<()> {
        Ok(())
    }
}
