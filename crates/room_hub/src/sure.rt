//! A hub in memory that never fails.
ghost use Rattle.std.specs.Prelude.{◌≡◌, ◌++◌, ◌+◌, true, IfOk, IfErr};
ghost use Rattle.room_edge.specs.Memory.{next};
ghost use Rattle.room_hub.specs.Happening.{gave, tried, dialled, sent, closed, deeds_in, IsNewEvent, IsNewDial};
ghost use Rattle.room_hub.specs.Memory.{board_of, OpenOnce, first_of, asked_once, gave_on, tried_on, dialled_on};

use crate::board::Board;
use crate::hub::{Deed, Deeds, Event, Events, Hub, HubFault, SendFault};
use room_json::{Copied, Text};
use std::alloc::Global;
use std::marker::Model;

/// A hub that gives its events in order, then the end, and keeps what is done on it.
#[derive(Drop)]
pub struct SureHub {
    alloc: Global,
    board: Board,
}

impl Model for SureHub {
    ghost use Rattle.room_hub.specs.Memory.{Board as Meaning};

    ghost Value = { Meaning };

    ghost view = { λ h. h.board };
}

impl SureHub {
    /// A hub with these events.
    pub fn new(alloc: Global, events: Events) -> SureHub
        requires { OpenOnce events }
        ensures { result ≡ board_of events }
    {
        SureHub {
            alloc,
            board: Board::new(alloc, events),
        }
    }

    /// What was sent, closed and dialled.
    pub fn done(&self) -> &Deeds
        ensures { result.now ≡ deeds_in self.now.happened }
    {
        self.board.deeds()
    }
}

impl Hub for SureHub {
    ghost tells = { true };

    ghost happened = { λ h. h.happened };

    ghost asked = { λ h. h.asked };

    ghost faults = { λ h. 0 };

    fn next(&mut self) -> Result<Event, HubFault>
        ensures told { self.new.happened ≡ self.old.happened ++ gave result }
        ensures fresh { IsNewEvent self.old.happened result }
        ensures asked { self.new.asked ≡ next self.old.asked }
        ensures sure { IfErr result (λ e. e ≡ HubFault.Memory) }
        ensures event { IfOk result (λ e. e ≡ first_of self.old.left) }
        ensures new { self.new ≡ gave_on (asked_once self.old) result }
    {
        self.board.ask();
        Ok(self.board.give()?)
    }

    fn send(&mut self, conn: u64, text: &Text) -> Result<(), SendFault>
        ensures told { self.new.happened ≡ self.old.happened ++ tried (sent conn text.now) result }
        ensures asked { self.new.asked ≡ self.old.asked }
        ensures sure { IfErr result (λ e. e ≡ SendFault.Memory) }
        ensures new { self.new ≡ tried_on self.old (sent conn text.now) result }
    {
        let text = text.copy(self.alloc)?;
        self.board.note(Deed::Sent(conn, text, false))?;
        Ok(())
    }

    fn close(&mut self, conn: u64, code: u16, text: &Text) -> Result<(), SendFault>
        ensures told { self.new.happened ≡ self.old.happened ++ tried (closed conn code text.now) result }
        ensures asked { self.new.asked ≡ self.old.asked }
        ensures sure { IfErr result (λ e. e ≡ SendFault.Memory) }
        ensures new { self.new ≡ tried_on self.old (closed conn code text.now) result }
    {
        let text = text.copy(self.alloc)?;
        self.board.note(Deed::Closed(conn, code, text, false))?;
        Ok(())
    }

    fn dial(&mut self) -> Result<u64, HubFault>
        ensures told { self.new.happened ≡ self.old.happened ++ dialled result }
        ensures fresh { IsNewDial self.old.happened result }
        ensures asked { self.new.asked ≡ self.old.asked }
        ensures sure { IfErr result (λ e. e ≡ HubFault.Memory) }
        ensures number { IfOk result (λ n. n ≡ self.old.last + 1) }
        ensures new { self.new ≡ dialled_on self.old result }
    {
        Ok(self.board.dial()?)
    }
}
