//! A hub in memory.
ghost use Rattle.std.specs.Prelude.{◌≡◌, ◌++◌, ◌+◌, true, false, IfOk, OnOk, IsErrOf};
ghost use Rattle.room_edge.specs.Memory.{no_calls, is_to_fail, next};
ghost use Rattle.room_hub.specs.Causes.{HasCause};
ghost use Rattle.room_hub.specs.Happening.{gave, tried, dialled, sent, closed, deeds_in, IsNewEvent, IsNewDial};
ghost use Rattle.room_hub.specs.Memory.{board_of, OpenOnce, first_of, asked_once, gave_on, tried_on, dialled_on};
ghost use Rattle.room_hub.specs.Memory.{with_board};

use crate::board::Board;
use crate::calls::Calls;
use crate::hub::{Deed, Deeds, Event, Events, Hub, HubFault, SendFault};
use room_json::{Copied, Text};
use std::alloc::Global;
use std::marker::Model;

/// A hub that gives its events in order, then the end, and keeps what is done on it. Some of its calls fail.
#[derive(Drop)]
pub struct MemHub {
    alloc: Global,
    board: Board,
    calls: Calls,
}

impl Model for MemHub {
    ghost use Rattle.room_hub.specs.Memory.{Failing};

    ghost Value = { Failing };

    ghost view = { λ h. record { board = h.board; calls = h.calls } };
}

impl MemHub {
    /// A hub with these events; a number k in `fails` lets the k-th call fail, counted from 1.
    pub fn new(alloc: Global, events: Events, fails: Vec<u64>) -> MemHub
        requires { OpenOnce events }
        ensures { result ≡ record { board = board_of events; calls = no_calls fails.items } }
    {
        MemHub {
            alloc,
            board: Board::new(alloc, events),
            calls: Calls::new(fails),
        }
    }

    /// What was sent, closed and dialled.
    pub fn done(&self) -> &Deeds
        ensures { result.now ≡ deeds_in self.now.board.happened }
    {
        self.board.deeds()
    }
}

impl Hub for MemHub {
    ghost tells = { true };

    ghost happened = { λ h. h.board.happened };

    ghost asked = { λ h. h.board.asked };

    ghost faults = { λ h. h.calls.faults };

    fn next(&mut self) -> Result<Event, HubFault>
        ensures told { self.new.board.happened ≡ self.old.board.happened ++ gave result }
        ensures fresh { IsNewEvent self.old.board.happened result }
        ensures asked { self.new.board.asked ≡ next self.old.board.asked }
        ensures cause { HasCause HubFault.Failed self.old.calls.faults self.new.calls.faults result }
        ensures event { IfOk result (λ e. e ≡ first_of self.old.board.left) }
        ensures new { self.new ≡ with_board self.old (gave_on (asked_once self.old.board) result) }
        ensures sure { OnOk result (is_to_fail self.old.calls ≡ false) }
        ensures failed { IsErrOf result HubFault.Failed → is_to_fail self.old.calls ≡ true }
    {
        self.board.ask();
        if self.calls.begin() {
            self.board.fail()?;
            return Err(HubFault::Failed);
        }
        Ok(self.board.give()?)
    }

    fn send(&mut self, conn: u64, text: &Text) -> Result<(), SendFault>
        ensures told { self.new.board.happened ≡ self.old.board.happened ++ tried (sent conn text.now) result }
        ensures asked { self.new.board.asked ≡ self.old.board.asked }
        ensures cause { HasCause SendFault.Lost self.old.calls.faults self.new.calls.faults result }
        ensures new { self.new ≡ with_board self.old (tried_on self.old.board (sent conn text.now) result) }
        ensures sure { OnOk result (is_to_fail self.old.calls ≡ false) }
        ensures lost { IsErrOf result SendFault.Lost → is_to_fail self.old.calls ≡ true }
    {
        let lost = self.calls.begin();
        let text = text.copy(self.alloc)?;
        self.board.note(Deed::Sent(conn, text, lost))?;
        if lost {
            return Err(SendFault::Lost);
        }
        Ok(())
    }

    fn close(&mut self, conn: u64, code: u16, text: &Text) -> Result<(), SendFault>
        ensures told { self.new.board.happened ≡ self.old.board.happened ++ tried (closed conn code text.now) result }
        ensures asked { self.new.board.asked ≡ self.old.board.asked }
        ensures cause { HasCause SendFault.Lost self.old.calls.faults self.new.calls.faults result }
        ensures new { self.new ≡ with_board self.old (tried_on self.old.board (closed conn code text.now) result) }
        ensures sure { OnOk result (is_to_fail self.old.calls ≡ false) }
        ensures lost { IsErrOf result SendFault.Lost → is_to_fail self.old.calls ≡ true }
    {
        let lost = self.calls.begin();
        let text = text.copy(self.alloc)?;
        self.board.note(Deed::Closed(conn, code, text, lost))?;
        if lost {
            return Err(SendFault::Lost);
        }
        Ok(())
    }

    fn dial(&mut self) -> Result<u64, HubFault>
        ensures told { self.new.board.happened ≡ self.old.board.happened ++ dialled result }
        ensures fresh { IsNewDial self.old.board.happened result }
        ensures asked { self.new.board.asked ≡ self.old.board.asked }
        ensures cause { HasCause HubFault.Failed self.old.calls.faults self.new.calls.faults result }
        ensures number { IfOk result (λ n. n ≡ self.old.board.last + 1) }
        ensures new { self.new ≡ with_board self.old (dialled_on self.old.board result) }
        ensures sure { OnOk result (is_to_fail self.old.calls ≡ false) }
        ensures failed { IsErrOf result HubFault.Failed → is_to_fail self.old.calls ≡ true }
    {
        if self.calls.begin() {
            self.board.fail()?;
            return Err(HubFault::Failed);
        }
        Ok(self.board.dial()?)
    }
}
