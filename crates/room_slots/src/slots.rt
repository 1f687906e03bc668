//! The clients of a world by number.
ghost use Rattle.std.specs.Prelude.{◌≡◌, map, Ok, IfOk, OnOk};
ghost use Rattle.std.specs.FinMap.{empty, get, insert};
ghost use Rattle.room_msg.specs.Written.{client_text};
ghost use Rattle.room_model.specs.Calls.{dialled, flush_frames, flushed, hello_of, resend_frames, resent};
ghost use Rattle.room_model.specs.Lines as model;
ghost use Rattle.room_model.specs.World.{slot_in, with_account};
ghost use Rattle.room_props.specs.Edits.{edit_of};
ghost use Rattle.room_queues.specs.Seen.{outbound_in, IsMail};
ghost use Rattle.room_slots.specs.Asking.{answer_of};
ghost use Rattle.room_slots.specs.Slots.{Calls, call_of, cut_off, dialled_on, kept, line_in};
ghost use Rattle.room_slots.specs.Taking.{Takes};

use crate::asking::Question;
use crate::slot::{Deed, Slot};
use crate::taking::Taken;
use room_client::Frames;
use room_json::{Json, Members, NoMemory, Text};
use room_props::Edit;
use room_queues::Mail;
use room_tree::Tree;
use std::alloc::Global;
use std::collections::BTreeMap;
use std::marker::Model;

/// The clients of a world by number. Contracts see a finite map of the model's slots; a client that was not heard of
/// yet is a new one of the room "room" (`slot_in`).
///
/// A client is put in by its first call that changes it: a refused call, an undo that finds nothing, and a question
/// leave the map as it was. Calls fail only where memory runs out; after that anything may have happened to the client.
#[derive(Drop)]
pub struct Slots<T: Tree> {
    slots: BTreeMap<u64, Slot<T>>,
}

impl<T: Tree> Model for Slots<T> {
    ghost use Rattle.room_slots.specs.Codes.{slots_code};
    ghost use Rattle.room_slots.specs.Slots.{Clients, as_map};

    ghost Value = { Clients };

    ghost coded = { slots_code };

    ghost view = { λ s. as_map s.slots.entries };
}

#[tactic(auto, using(room_queues::proofs::Maps::views))]
impl<T: Tree> Slots<T> {
    /// No client was heard of.
    pub fn new(alloc: Global) -> Slots<T>
        ensures { result ≡ empty }
    {
        Slots {
            slots: BTreeMap::new(alloc),
        }
    }

    /// The present connection of a client.
    pub fn present(&self, c: u64) -> Option<u64>
        ensures { result ≡ (slot_in (get self.now c)).present }
    {
        match self.slots.get(&c) {
            Some(slot) => slot.present(),
            None => None,
        }
    }

    /// The line that answers a question to a client.
    pub fn ask(&self, alloc: Global, c: u64, question: Question) -> Result<Text, NoMemory>
        ensures { IfOk result (λ t. t ≡ answer_of c (slot_in (get self.now c)) question) }
    {
        match self.slots.get(&c) {
            Some(slot) => slot.answer(alloc, c, question),
            None => of_nobody::<T>(alloc, c, question),
        }
    }

    /// Puts a client in after a call, if that worked.
    fn put<A: Drop>(
        &mut self,
        c: u64,
        slot: Slot<T>,
        answer: Result<A, NoMemory>,
    ) -> Result<A, NoMemory>
        ensures answer { IfOk result (λ a. answer ≡ Ok a) }
        ensures ok { OnOk result (self.new ≡ insert self.old c slot) }
    {
        match answer {
            Ok(a) => {
                self.slots.insert(c, slot)?;
                Ok(a)
            }
            Err(e) => Err(e),
        }
    }

    /// The same where a line is written only of a call that changed nothing.
    fn keep(
        &mut self,
        c: u64,
        slot: Slot<T>,
        said: Result<Option<Text>, NoMemory>,
    ) -> Result<Option<Text>, NoMemory>
        ensures answer { IfOk result (λ t. said ≡ Ok t) }
        ensures ok { IfOk result (λ t. self.new ≡ kept self.old c slot t) }
    {
        match said {
            Ok(None) => {
                self.slots.insert(c, slot)?;
                Ok(None)
            }
            Ok(Some(line)) => Ok(Some(line)),
            Err(e) => Err(e),
        }
    }
}

/// What a client answers that was not heard of.
fn of_nobody<T: Tree>(alloc: Global, c: u64, question: Question) -> Result<Text, NoMemory>
    ensures { IfOk result (λ t. t ≡ answer_of c new_slot question) }
{
    let slot = Slot::<T>::new(alloc)?;
    let text = slot.answer(alloc, c, question);
    drop(slot);
    text
}

ghost use Rattle.room_model.specs.World.{new_slot};

#[tactic(auto, using(room_queues::proofs::Maps::views))]
impl<T: Tree> Slots<T> {
    /// Makes an edit: the line, where it is refused.
    pub fn edit(
        &mut self,
        alloc: Global,
        line: u64,
        c: u64,
        e: &Edit,
    ) -> Result<Option<Text>, NoMemory>
        ensures { IfOk result (λ t. Calls self.old self.new line c (model.Edits (edit_of e.now)) (line_in t)) }
    {
        let Some(slot) = self.slots.get_mut(&c) else {
            let mut slot = Slot::new(alloc)?;
            let said = slot.edit(alloc, line, e);
            return self.keep(c, slot, said);
        };
        slot.edit(alloc, line, e)
    }

    /// A call that has no argument.
    fn does(
        &mut self,
        alloc: Global,
        line: u64,
        c: u64,
        deed: Deed,
    ) -> Result<Option<Text>, NoMemory>
        ensures { IfOk result (λ t. Calls self.old self.new line c (call_of deed) (line_in t)) }
    {
        let Some(slot) = self.slots.get_mut(&c) else {
            let mut slot = Slot::new(alloc)?;
            let said = slot.does(alloc, line, deed);
            return self.keep(c, slot, said);
        };
        slot.does(alloc, line, deed)
    }

    /// Opens a batch: the line, where it is refused.
    pub fn begin(&mut self, alloc: Global, line: u64, c: u64) -> Result<Option<Text>, NoMemory>
        ensures { IfOk result (λ t. Calls self.old self.new line c model.Begin (line_in t)) }
    {
        self.does(alloc, line, c, Deed::Begin)
    }

    /// Ends the open batch: the line, where it is refused.
    pub fn end(&mut self, alloc: Global, line: u64, c: u64) -> Result<Option<Text>, NoMemory>
        ensures { IfOk result (λ t. Calls self.old self.new line c model.End (line_in t)) }
    {
        self.does(alloc, line, c, Deed::End)
    }

    /// Takes the last entry of the history back: the line, where it is refused or there is no entry.
    pub fn undo(&mut self, alloc: Global, line: u64, c: u64) -> Result<Option<Text>, NoMemory>
        ensures { IfOk result (λ t. Calls self.old self.new line c model.Undo (line_in t)) }
    {
        self.does(alloc, line, c, Deed::Undo)
    }

    /// Takes the last undo back: the line, where it is refused or there is none.
    pub fn redo(&mut self, alloc: Global, line: u64, c: u64) -> Result<Option<Text>, NoMemory>
        ensures { IfOk result (λ t. Calls self.old self.new line c model.Redo (line_in t)) }
    {
        self.does(alloc, line, c, Deed::Redo)
    }

    /// Begins a pause. Writes no line.
    pub fn pause(&mut self, alloc: Global, line: u64, c: u64) -> Result<Option<Text>, NoMemory>
        ensures { IfOk result (λ t. Calls self.old self.new line c model.Pause (line_in t)) }
    {
        self.does(alloc, line, c, Deed::Pause)
    }

    /// Ends a pause. Writes no line.
    pub fn resume(&mut self, alloc: Global, line: u64, c: u64) -> Result<Option<Text>, NoMemory>
        ensures { IfOk result (λ t. Calls self.old self.new line c model.Resume (line_in t)) }
    {
        self.does(alloc, line, c, Deed::Resume)
    }

    /// Forgets what can be undone and redone. Writes no line.
    pub fn clear(&mut self, alloc: Global, line: u64, c: u64) -> Result<Option<Text>, NoMemory>
        ensures { IfOk result (λ t. Calls self.old self.new line c model.Clear (line_in t)) }
    {
        self.does(alloc, line, c, Deed::Clear)
    }

    /// Merges a patch into the own presence: the line, where it is refused.
    pub fn presence(
        &mut self,
        alloc: Global,
        line: u64,
        c: u64,
        patch: &Members,
        in_history: bool,
    ) -> Result<Option<Text>, NoMemory>
        ensures { IfOk result (λ t.
            Calls self.old self.new line c (model.Presence patch.now in_history) (line_in t)) }
    {
        let Some(slot) = self.slots.get_mut(&c) else {
            let mut slot = Slot::new(alloc)?;
            let said = slot.presence(alloc, line, patch, in_history);
            return self.keep(c, slot, said);
        };
        slot.presence(alloc, line, patch, in_history)
    }

    /// Queues an event for all others: the line, where it is refused.
    pub fn event(
        &mut self,
        alloc: Global,
        line: u64,
        c: u64,
        e: &Json,
    ) -> Result<Option<Text>, NoMemory>
        ensures { IfOk result (λ t. Calls self.old self.new line c (model.Event e.now) (line_in t)) }
    {
        let Some(slot) = self.slots.get_mut(&c) else {
            let mut slot = Slot::new(alloc)?;
            let said = slot.event(alloc, line, e);
            return self.keep(c, slot, said);
        };
        slot.event(alloc, line, e)
    }
}

#[tactic(auto, using(room_queues::proofs::Maps::views))]
impl<T: Tree> Slots<T> {
    /// A new connection is the client's present one: the text of its first frame. The old one is to be cut before.
    pub fn dial(&mut self, alloc: Global, c: u64, k: u64) -> Result<Text, NoMemory>
        ensures text { IfOk result (λ t.
            t ≡ client_text (hello_of (dialled (slot_in (get self.old c)).account))) }
        ensures ok { OnOk result (self.new ≡ insert self.old c (dialled_on k (slot_in (get self.old c)))) }
    {
        let Some(slot) = self.slots.get_mut(&c) else {
            let mut slot = Slot::new(alloc)?;
            let hello = slot.dial(alloc, k);
            return self.put(c, slot, hello);
        };
        slot.dial(alloc, k)
    }

    /// The client's connection is lost, if it had one.
    pub fn cut(&mut self, alloc: Global, c: u64) -> Result<(), NoMemory>
        ensures { OnOk result (self.new ≡ insert self.old c (cut_off (slot_in (get self.old c)))) }
    {
        let Some(slot) = self.slots.get_mut(&c) else {
            let mut slot = Slot::new(alloc)?;
            slot.cut(alloc);
            return self.put(c, slot, Ok(()));
        };
        slot.cut(alloc);
        Ok(())
    }

    /// The texts of the frames that the client is to send now.
    pub fn flush(&mut self, alloc: Global, c: u64) -> Result<Frames, NoMemory>
        ensures texts { IfOk result (λ ts.
            ts ≡ map client_text (flush_frames (slot_in (get self.old c)).account)) }
        ensures ok { OnOk result (self.new ≡ insert self.old c
            (with_account (slot_in (get self.old c)) (flushed (slot_in (get self.old c)).account))) }
    {
        let Some(slot) = self.slots.get_mut(&c) else {
            let mut slot = Slot::new(alloc)?;
            let frames = slot.flush(alloc);
            return self.put(c, slot, frames);
        };
        slot.flush(alloc)
    }

    /// The texts of the frames of all batches of the client that aren't acknowledged.
    pub fn resend(&mut self, alloc: Global, c: u64) -> Result<Frames, NoMemory>
        ensures texts { IfOk result (λ ts.
            ts ≡ map client_text (resend_frames (slot_in (get self.old c)).account)) }
        ensures ok { OnOk result (self.new ≡ insert self.old c
            (with_account (slot_in (get self.old c)) (resent (slot_in (get self.old c)).account))) }
    {
        let Some(slot) = self.slots.get_mut(&c) else {
            let mut slot = Slot::new(alloc)?;
            let frames = slot.resend(alloc);
            return self.put(c, slot, frames);
        };
        slot.resend(alloc)
    }

    /// What came down on the connection k, which the client dialled: what is written, what goes up on it, or which
    /// connection the client lost by it.
    pub fn take(
        &mut self,
        alloc: Global,
        line: u64,
        c: u64,
        k: u64,
        mail: &Mail,
    ) -> Result<Taken, NoMemory>
        ensures { IsMail mail.now → IfOk result (Takes self.old self.new line c k (outbound_in mail.now)) }
    {
        let Some(slot) = self.slots.get_mut(&c) else {
            let mut slot = Slot::new(alloc)?;
            let taken = slot.take(alloc, line, c, k, mail);
            return self.put(c, slot, taken);
        };
        slot.take(alloc, line, c, k, mail)
    }
}
