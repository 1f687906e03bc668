//! What happened on a hub in memory, and the events that are left.
ghost use Rattle.std.specs.Prelude.{◌≡◌, ◌<◌, ◌+◌, ◌++◌, ◌∷◌, [], true, drop, max, vec_len, vec_capacity};
ghost use Rattle.std.specs.Prelude.{IfSome, IfOk, OnOk, OnErr};
ghost use Rattle.room_hub.specs.Happening.{deeds_in, opened_in, opens, dials};
ghost use Rattle.room_hub.specs.Happening.{IsNewEvent, IsNewDial};
ghost use Rattle.room_hub.specs.Memory.{greatest, board_of, OpenOnce, first_of, asked_once, given, noted, dialled_next};
ghost use Rattle.room_hub.specs.Memory.{failed_once};
ghost use Rattle.room_hub.specs.Memory.{Keeps};

use crate::hub::{Deed, Deeds, Event, Events, Happening};
use room_json::{Copied, NoMemory};
use std::alloc::Global;
use std::marker::Model;

/// The events that are left, and what happened. The deeds are kept once more, so that they can be asked for.
#[derive(Drop)]
pub(crate) struct Board {
    alloc: Global,
    events: Events,
    at: usize,
    happened: Vec<Happening>,
    deeds: Deeds,
    last: u64,
    asked: u64,
    ghost kept: { Keeps last happened.items (drop at events) deeds },
}

impl Model for Board {
    ghost use Rattle.std.specs.Prelude.{drop};
    ghost use Rattle.room_hub.specs.Memory.{Board as Meaning};

    ghost Value = { Meaning };

    ghost view = { λ b. record {
      left = drop b.at b.events;
      happened = b.happened.items;
      last = b.last;
      asked = b.asked;
    } };
}

/// The greatest number of a connection that these events open.
#[tactic(auto, using(crate::proofs::Numbers::greatest_opens))]
fn greatest_of(events: &[Event]) -> u64
    ensures { result ≡ greatest (opened_in events.now) }
{
    let mut top = 0;
    for event in events {
        top = top.max(opened_number(event));
    }
    top
}

fn opened_number(event: &Event) -> u64
    ensures { result ≡ greatest (opens event.now) }
{
    match event {
        Event::Opened(conn, _) => *conn,
        Event::Frame(_, _) | Event::Gone(_) | Event::Quiet | Event::End => 0,
    }
}

fn add(happened: &mut Vec<Happening>, what: Happening)
    requires { vec_len happened.old < vec_capacity happened.old }
    ensures { happened.new.items ≡ happened.old.items ++ what ∷ [] }
{
    happened.push(what).unwrap();
}

/// A copy of the event at an index, and the end behind the last.
fn event_at(alloc: Global, events: &[Event], at: usize) -> Result<Event, NoMemory>
    ensures { IfOk result (λ e. e ≡ first_of (drop at events.now)) }
{
    match events.get(at) {
        Some(event) => event.copy(alloc),
        None => Ok(Event::End),
    }
}

fn number_behind(last: u64) -> Option<u64>
    ensures { IfSome result (λ n. n ≡ last + 1) }
{
    last.checked_add(1)
}

/// The index behind the first event from an index on.
fn passed(events: &[Event], at: usize) -> usize
    ensures { drop result events.now ≡ drop 1 (drop at events.now) }
{
    if at < events.len() {
        return at + 1;
    }
    at
}

impl Board {
    pub(crate) fn new(alloc: Global, events: Events) -> Board
        requires { OpenOnce events }
        ensures { result ≡ board_of events }
    {
        let last = greatest_of(events.as_slice());
        Board {
            alloc,
            events,
            at: 0,
            happened: Vec::new(alloc),
            deeds: Deeds::new(alloc),
            last,
            asked: 0,
        }
    }

    /// Counts that it was asked for an event.
    pub(crate) fn ask(&mut self)
        ensures { self.new ≡ asked_once self.old }
    {
        self.asked = self.asked.saturating_add(1);
    }

    /// Gives the next event. A refused call changes nothing.
    pub(crate) fn give(&mut self) -> Result<Event, NoMemory>
        ensures event { IfOk result (λ e. e ≡ first_of self.old.left) }
        ensures ok { OnOk result (self.new ≡ given self.old) }
        ensures err { OnErr result (self.new ≡ self.old) }
        ensures fresh { IsNewEvent self.old.happened result }
    {
        let event = event_at(self.alloc, self.events.as_slice(), self.at)?;
        let copy = event.copy(self.alloc)?;
        self.happened.reserve(1)?;
        self.at = passed(self.events.as_slice(), self.at);
        add(&mut self.happened, Happening::Gave(copy));
        Ok(event)
    }

    /// Notes that a call failed. A refused call changes nothing.
    pub(crate) fn fail(&mut self) -> Result<(), NoMemory>
        ensures ok { OnOk result (self.new ≡ failed_once self.old) }
        ensures err { OnErr result (self.new ≡ self.old) }
    {
        self.happened.reserve(1)?;
        add(&mut self.happened, Happening::Failed);
        Ok(())
    }

    /// Notes what was tried. A refused call changes nothing.
    pub(crate) fn note(&mut self, deed: Deed) -> Result<(), NoMemory>
        requires { dials deed ≡ [] }
        ensures ok { OnOk result (self.new ≡ noted self.old deed) }
        ensures err { OnErr result (self.new ≡ self.old) }
    {
        let copy = deed.copy(self.alloc)?;
        self.happened.reserve(1)?;
        self.deeds.push(deed)?;
        add(&mut self.happened, Happening::Did(copy));
        Ok(())
    }

    /// Opens a connection, with the number behind the greatest. A refused call changes nothing.
    pub(crate) fn dial(&mut self) -> Result<u64, NoMemory>
        ensures number { IfOk result (λ n. n ≡ self.old.last + 1) }
        ensures ok { OnOk result (self.new ≡ dialled_next self.old) }
        ensures err { OnErr result (self.new ≡ self.old) }
        ensures fresh { IsNewDial self.old.happened result }
    {
        let Some(number) = number_behind(self.last) else {
            return Err(NoMemory);
        };
        self.happened.reserve(1)?;
        self.deeds.push(Deed::Dialled(number))?;
        self.last = number;
        add(&mut self.happened, Happening::Did(Deed::Dialled(number)));
        Ok(number)
    }

    /// What was done.
    pub(crate) fn deeds(&self) -> &Deeds
        ensures { result.now ≡ deeds_in self.now.happened }
    {
        &self.deeds
    }
}
