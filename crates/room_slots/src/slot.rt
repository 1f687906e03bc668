//! A client, its present connection, and the last notices that it was told.
ghost use Rattle.std.specs.Prelude.{◌≡◌, map, IfOk, OnOk};
ghost use Rattle.room_json.specs.Value.{Value};
ghost use Rattle.room_msg.specs.Written.{client_text};
ghost use Rattle.room_model.specs.Calls.{dialled, flush_frames, flushed, hello_of, resend_frames, resent};
ghost use Rattle.room_model.specs.Lines.{Edits, Presence as PresenceCall, Event as EventCall};
ghost use Rattle.room_model.specs.World.{new_slot, with_account};
ghost use Rattle.room_props.specs.Edits.{edit_of};
ghost use Rattle.room_slots.specs.Asking.{answer_of};
ghost use Rattle.room_slots.specs.Slots.{Acts, call_of, cut_off, dialled_on};

use crate::asking::Question;
use crate::refusals::{of_batch, of_edit, of_saying, of_undo};
use room_client::{BatchFault, Client, Frames, SayFault, UndoFault};
use room_json::{Json, Members, NoMemory, Seq, Text};
use room_notice::Notices;
use room_props::Edit;
use room_report::{brief_client, history, nothing, notices, others, show_client};
use room_tree::Tree;
use std::alloc::Global;
use std::marker::Model;

/// A client, its present connection, and the last notices that it was told. Contracts see the model's slot.
#[derive(Drop)]
pub(crate) struct Slot<T: Tree> {
    pub(crate) client: Client<T>,
    pub(crate) present: Option<u64>,
    pub(crate) noticed: Notices,
}

impl<T: Tree> Model for Slot<T> {
    ghost use Rattle.room_model.specs.World.{Slot as Seen};
    ghost use Rattle.room_notice.specs.Notices.{notices_in};
    ghost use Rattle.room_slots.specs.Codes.{slot_code};

    ghost Value = { Seen };

    ghost coded = { slot_code };

    ghost view = { λ s. record { account = s.client; present = s.present; noticed = notices_in s.noticed } };
}

/// What the user of a client calls that has no argument.
#[derive(Clone, Copy, Debug, PartialEq, Eq)]
pub(crate) enum Deed {
    Begin,
    End,
    Undo,
    Redo,
    Pause,
    Resume,
    Clear,
}

impl<T: Tree> Slot<T> {
    /// A client that was not heard of yet.
    pub(crate) fn new(alloc: Global) -> Result<Slot<T>, NoMemory>
        ensures { IfOk result (λ s. s ≡ new_slot) }
    {
        let room = Text::from_str(alloc, "room")?;
        Ok(Slot {
            client: Client::new(alloc, &room)?,
            present: None,
            noticed: Seq::new(alloc),
        })
    }

    /// Its connection.
    pub(crate) fn present(&self) -> Option<u64>
        ensures { result ≡ self.now.present }
    {
        self.present
    }

    /// The line that answers a question to the client of that number.
    pub(crate) fn answer(&self, alloc: Global, c: u64, question: Question) -> Result<Text, NoMemory>
        ensures { IfOk result (λ t. t ≡ answer_of c self.now question) }
    {
        let x = &self.client;
        match question {
            Question::Show => show_client(alloc, Some(c), x.taken(), x.unacknowledged(), x.shown()),
            Question::Brief => brief_client(
                alloc,
                Some(c),
                x.taken(),
                x.unacknowledged(),
                x.shown(),
            ),
            Question::Others => others(alloc, Some(c), x.me(), &x.others(alloc)?),
            Question::History => history(alloc, Some(c), x.undo_count(), x.redo_count()),
            Question::Notices => notices(alloc, Some(c), &self.noticed),
        }
    }
}

impl<T: Tree> Slot<T> {
    /// Makes an edit.
    pub(crate) fn edit(
        &mut self,
        alloc: Global,
        line: u64,
        e: &Edit,
    ) -> Result<Option<Text>, NoMemory>
        ensures { IfOk result (Acts self.old self.new line (Edits (edit_of e.now))) }
    {
        match self.client.edit(alloc, e) {
            Ok(noticed) => {
                self.noticed = noticed;
                Ok(None)
            }
            Err(fault) => Ok(Some(of_edit(alloc, line, &fault)?)),
        }
    }

    /// A call that has no argument.
    pub(crate) fn does(
        &mut self,
        alloc: Global,
        line: u64,
        deed: Deed,
    ) -> Result<Option<Text>, NoMemory>
        ensures { IfOk result (Acts self.old self.new line (call_of deed)) }
    {
        match deed {
            Deed::Begin => self.begin(alloc, line),
            Deed::End => self.end(alloc, line),
            Deed::Undo => self.undo(alloc, line),
            Deed::Redo => self.redo(alloc, line),
            Deed::Pause => {
                self.client.pause();
                Ok(None)
            }
            Deed::Resume => {
                self.client.resume();
                Ok(None)
            }
            Deed::Clear => {
                self.client.clear();
                Ok(None)
            }
        }
    }

    fn begin(&mut self, alloc: Global, line: u64) -> Result<Option<Text>, NoMemory>
        ensures { IfOk result (Acts self.old self.new line (call_of Deed.Begin)) }
    {
        match self.client.batch_begin() {
            Ok(()) => Ok(None),
            Err(fault) => Ok(Some(of_batch(alloc, line, &fault)?)),
        }
    }

    fn end(&mut self, alloc: Global, line: u64) -> Result<Option<Text>, NoMemory>
        ensures { IfOk result (Acts self.old self.new line (call_of Deed.End)) }
    {
        match self.client.batch_end() {
            Ok(()) => Ok(None),
            Err(fault) => Ok(Some(of_batch(alloc, line, &fault)?)),
        }
    }

    fn undo(&mut self, alloc: Global, line: u64) -> Result<Option<Text>, NoMemory>
        ensures { IfOk result (Acts self.old self.new line (call_of Deed.Undo)) }
    {
        match self.client.undo(alloc) {
            Ok(Some(noticed)) => {
                self.noticed = noticed;
                Ok(None)
            }
            Ok(None) => Ok(Some(nothing(alloc, line)?)),
            Err(fault) => Ok(Some(of_undo(alloc, line, &fault)?)),
        }
    }

    fn redo(&mut self, alloc: Global, line: u64) -> Result<Option<Text>, NoMemory>
        ensures { IfOk result (Acts self.old self.new line (call_of Deed.Redo)) }
    {
        match self.client.redo(alloc) {
            Ok(Some(noticed)) => {
                self.noticed = noticed;
                Ok(None)
            }
            Ok(None) => Ok(Some(nothing(alloc, line)?)),
            Err(fault) => Ok(Some(of_undo(alloc, line, &fault)?)),
        }
    }

    /// Changes the own presence.
    pub(crate) fn presence(
        &mut self,
        alloc: Global,
        line: u64,
        patch: &Members,
        in_history: bool,
    ) -> Result<Option<Text>, NoMemory>
        ensures { IfOk result (Acts self.old self.new line (PresenceCall patch.now in_history)) }
    {
        match self.client.presence(alloc, patch, in_history) {
            Ok(()) => Ok(None),
            Err(fault) => Ok(Some(of_saying(alloc, line, &fault)?)),
        }
    }

    /// Queues an event for all others.
    pub(crate) fn event(
        &mut self,
        alloc: Global,
        line: u64,
        e: &Json,
    ) -> Result<Option<Text>, NoMemory>
        ensures { IfOk result (Acts self.old self.new line (EventCall e.now)) }
    {
        match self.client.event(alloc, e) {
            Ok(()) => Ok(None),
            Err(fault) => Ok(Some(of_saying(alloc, line, &fault)?)),
        }
    }
}

impl<T: Tree> Slot<T> {
    /// A new connection is its present one: the first frame on it.
    pub(crate) fn dial(&mut self, alloc: Global, k: u64) -> Result<Text, NoMemory>
        ensures text { IfOk result (λ t. t ≡ client_text (hello_of (dialled self.old.account))) }
        ensures ok { OnOk result (self.new ≡ dialled_on k self.old) }
    {
        let hello = self.client.dial(alloc)?;
        self.present = Some(k);
        Ok(hello)
    }

    /// Its connection is lost.
    pub(crate) fn cut(&mut self, alloc: Global)
        ensures { self.new ≡ cut_off self.old }
    {
        self.client.lost(alloc);
        self.present = None;
    }

    /// The texts of the frames that are to be sent now.
    pub(crate) fn flush(&mut self, alloc: Global) -> Result<Frames, NoMemory>
        ensures texts { IfOk result (λ ts. ts ≡ map client_text (flush_frames self.old.account)) }
        ensures ok { OnOk result (self.new ≡ with_account self.old (flushed self.old.account)) }
    {
        self.client.flush(alloc)
    }

    /// The texts of the frames of all batches that aren't acknowledged.
    pub(crate) fn resend(&mut self, alloc: Global) -> Result<Frames, NoMemory>
        ensures texts { IfOk result (λ ts. ts ≡ map client_text (resend_frames self.old.account)) }
        ensures ok { OnOk result (self.new ≡ with_account self.old (resent self.old.account)) }
    {
        self.client.resend(alloc)
    }
}
