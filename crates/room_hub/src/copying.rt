//! Copies of events and deeds.
ghost use Rattle.std.specs.Prelude.{◌≡◌, IfOk};

use crate::hub::{Deed, Event};
use room_json::{Copied, NoMemory};
use std::alloc::Global;

impl Copied for Event {
    fn copy(&self, alloc: Global) -> Result<Event, NoMemory> {
        Ok(match self {
            Event::Opened(conn, key) => Event::Opened(*conn, *key),
            Event::Frame(conn, text) => Event::Frame(*conn, text.copy(alloc)?),
            Event::Gone(conn) => Event::Gone(*conn),
            Event::Quiet => Event::Quiet,
            Event::End => Event::End,
        })
    }
}

impl Copied for Deed {
    fn copy(&self, alloc: Global) -> Result<Deed, NoMemory> {
        Ok(match self {
            Deed::Sent(conn, text, lost) => Deed::Sent(*conn, text.copy(alloc)?, *lost),
            Deed::Closed(conn, code, text, lost) => {
                Deed::Closed(*conn, *code, text.copy(alloc)?, *lost)
            }
            Deed::Dialled(conn) => Deed::Dialled(*conn),
        })
    }
}
