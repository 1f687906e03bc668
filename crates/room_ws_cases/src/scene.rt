//! What cases act on: streams that wait, and a hub over them.
use crate::broken::Broken;
use crate::wire::{Wire, Written};
use room_edge::MemSource;
use room_json::{Bytes, Text};
use room_ws::{MemListen, Side, WsHub};
use std::alloc::Global;
use std::cell::RefCell;
use std::collections::VecDeque;
use std::rc::Rc;

/// A hub over streams in memory.
pub(crate) type MemHub = WsHub<MemListen<Wire>, MemSource>;

/// The streams that wait for the next hub, its random bytes, what was written to each, and the hub.
#[derive(Drop)]
pub(crate) struct Scene {
    keys: Vec<u8>,
    waiting: VecDeque<Wire>,
    written: Vec<Written>,
    hub: Option<MemHub>,
}

impl Scene {
    /// Nothing waits, and there is no hub; the next one has these random bytes.
    pub(crate) fn new(alloc: Global, keys: Vec<u8>) -> Scene {
        Scene {
            keys,
            waiting: VecDeque::new(alloc),
            written: Vec::new(alloc),
            hub: None,
        }
    }

    /// What was written to the stream that was added as this one, from 1.
    pub(crate) fn written(&self, number: u64) -> Result<&Written, Broken> {
        for (at, written) in self.written.iter().enumerate() {
            if at as u64 + 1 == number {
                return Ok(written);
            }
        }
        Err(Broken::Stream)
    }

    /// Adds a stream of these chunks, which takes so many writes.
    pub(crate) fn add(&mut self, alloc: Global, writes: u64, chunks: &str) -> Result<(), Broken> {
        let written = Rc::new(alloc, RefCell::new(Vec::new(alloc)))?;
        let mut wire = Wire::new(alloc, writes, written.clone()?);
        for word in chunks.split_whitespace() {
            wire.push_word(alloc, word)?;
        }
        self.written.push(written)?;
        self.waiting.push_back(wire)?;
        Ok(())
    }

    /// Makes a hub over the streams that wait.
    pub(crate) fn open(&mut self, alloc: Global, side: Side) -> Result<(), Broken> {
        let waiting = std::mem::replace(&mut self.waiting, VecDeque::new(alloc));
        let keys = std::mem::replace(&mut self.keys, Vec::new(alloc));
        let source = MemSource::new(Bytes::from_vec(keys), Vec::new(alloc));
        self.hub = Some(WsHub::new(alloc, MemListen::new(waiting), source, side)?);
        Ok(())
    }

    /// The hub.
    pub(crate) fn hub(&mut self) -> Result<&mut MemHub, Broken> {
        match &mut self.hub {
            Some(hub) => Ok(hub),
            None => Err(Broken::Hub),
        }
    }
}
