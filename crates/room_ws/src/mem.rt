//! A listener in memory.
ghost use Rattle.std.specs.Prelude.{◌≡◌, Some};
ghost use Rattle.room_edge.specs.Causes.{HasCause};
ghost use Rattle.room_ws.specs.Waiting.{Takes};

use crate::listen::Listen;
use room_edge::Failed;
use std::collections::VecDeque;
use std::io::{Read, Write};

/// A listener whose streams are there from the beginning; it never fails.
#[derive(Drop)]
pub struct MemListen<T> {
    streams: VecDeque<T>,
}

impl<T> MemListen<T> {
    /// A listener with these streams.
    pub fn new(streams: VecDeque<T>) -> MemListen<T>
        ensures { result.streams ≡ streams }
    {
        MemListen { streams }
    }
}

impl<T: Read + Write + Drop> Listen for MemListen<T> {
    type Stream = T;

    ghost waiting = { λ l. Some l.streams.items };

    ghost faults = { λ _. 0 };

    fn accept(&mut self) -> Result<Option<T>, Failed> {
        Ok(self.streams.pop_front())
    }
}
