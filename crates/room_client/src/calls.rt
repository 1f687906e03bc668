//! What the user of a client does.
ghost use Rattle.std.specs.Prelude.{◌≡◌, ◌++◌, ◌∷◌, [], true, Ok, IfOk, IfErr, OnOk, OnErr};
ghost use Rattle.std.specs.Option.{option_map};
ghost use Rattle.room_json.specs.Value.{depth as depth_of};
ghost use Rattle.room_json.specs.View.{json_of};
ghost use Rattle.room_model.specs.Account.{Account, is_on as is_on_of};
ghost use Rattle.room_model.specs.Calls.{batch_begin, batch_end, clear, edit, event, go_back, pause, presence, resume};
ghost use Rattle.room_model.specs.Calls.{Undo, Redo};
ghost use Rattle.room_notice.specs.Notices.{notices_in};
ghost use Rattle.room_props.specs.Edits.{IsFaultOf, edit_of};
ghost use Rattle.room_editor.specs.Editor.{WentBack, done};
ghost use Rattle.room_editor.specs.Faults.{IsBatchFault, IsSayFault, IsUndoFault};

use crate::client::Client;
use crate::frames::of_event;
use crate::stage::is_on;
use room_editor::{BatchFault, SayFault, UndoFault};
use room_json::{Copied, Json, Members, NoMemory, depth};
use room_msg::MAX_FRAME;
use room_notice::Notices;
use room_props::{Edit, EditFault};
use room_tree::Tree;
use std::alloc::Global;

/// The greatest depth of a value in an event.
const MAX_EVENT_DEPTH: u64 = 50;

/// The depth of a value, unless it is deeper than any memory.
fn exact_depth(value: &Json) -> Result<u64, NoMemory>
    ensures { IfOk result (λ d. d ≡ depth_of (json_of value.now)) }
{
    let levels = depth(value);
    if levels == u64::MAX {
        return Err(NoMemory);
    }
    Ok(levels)
}

/// Whether an event may be sent: it isn't too deep, and its frame isn't too large.
fn check_event(alloc: Global, e: &Json) -> Result<(), SayFault>
    ensures ok { (x : Account) → is_on_of x.stage ≡ true → OnOk result (event x e.now
        ≡ Ok (record x { events = x.events ++ e.now ∷ [] })) }
    ensures fault { (x : Account) → is_on_of x.stage ≡ true → IfErr result (IsSayFault (event x e.now)) }
{
    let levels = exact_depth(e)?;
    if levels > MAX_EVENT_DEPTH {
        return Err(SayFault::ValueTooDeep(levels));
    }
    let bytes = of_event(alloc, e)?.len();
    if bytes > MAX_FRAME {
        return Err(SayFault::TooLarge(bytes));
    }
    Ok(())
}

impl<T: Tree> Client<T> {
    /// Makes an edit, and answers what it changes in the view. In an open batch its operations go there; else they are
    /// issued as a batch of their own. A refused call changes nothing.
    pub fn edit(&mut self, alloc: Global, e: &Edit) -> Result<Notices, EditFault>
        ensures ok { IfOk result (λ ns. done (edit self.old (edit_of e.now))
            ≡ Ok (record { account = self.new; notices = notices_in ns })) }
        ensures fault { IfErr result (IsFaultOf (edit self.old (edit_of e.now))) }
        ensures err { OnErr result (self.new ≡ self.old) }
    {
        self.editor.rests();
        let result = self.editor.edit(alloc, e);
        self.editor.rests();
        result
    }

    /// Opens a batch: what is done until its end is one batch, and one entry of the history. Takes no memory.
    pub fn batch_begin(&mut self) -> Result<(), BatchFault>
        ensures ok { OnOk result (batch_begin self.old ≡ Ok self.new) }
        ensures fault { IfErr result (λ f. (f ≡ BatchFault.InBatch) × IsBatchFault (batch_begin self.old) f) }
        ensures err { OnErr result (self.new ≡ self.old) }
    {
        self.editor.batch_begin()
    }

    /// Ends the open batch: it is issued, if it holds operations, and what takes it back is noted. Out of memory the
    /// batch stays open.
    pub fn batch_end(&mut self) -> Result<(), BatchFault>
        ensures ok { OnOk result (done (batch_end self.old) ≡ Ok (record { account = self.new; notices = [] })) }
        ensures fault { IfErr result (IsBatchFault (batch_end self.old)) }
        ensures err { OnErr result (self.new ≡ self.old) }
    {
        self.editor.rests();
        let result = self.editor.batch_end();
        self.editor.rests();
        result
    }

    /// Takes the last entry of the history back, and answers what that changes in the view, or `None` where there is no
    /// entry. A refused call changes nothing.
    pub fn undo(&mut self, alloc: Global) -> Result<Option<Notices>, UndoFault>
        ensures ok { IfOk result (λ o. WentBack (go_back Undo self.old) self.old self.new (option_map notices_in o)) }
        ensures fault { IfErr result (IsUndoFault (go_back Undo self.old)) }
        ensures err { OnErr result (self.new ≡ self.old) }
    {
        self.editor.rests();
        let result = self.editor.undo(alloc);
        self.editor.rests();
        result
    }

    /// Takes the last undo back, and answers what that changes in the view, or `None` where there is none. A refused
    /// call changes nothing.
    pub fn redo(&mut self, alloc: Global) -> Result<Option<Notices>, UndoFault>
        ensures ok { IfOk result (λ o. WentBack (go_back Redo self.old) self.old self.new (option_map notices_in o)) }
        ensures fault { IfErr result (IsUndoFault (go_back Redo self.old)) }
        ensures err { OnErr result (self.new ≡ self.old) }
    {
        self.editor.rests();
        let result = self.editor.redo(alloc);
        self.editor.rests();
        result
    }

    /// Begins a pause: until its end what is done is one entry of the history. Takes no memory.
    pub fn pause(&mut self)
        ensures { self.new ≡ pause self.old }
    {
        self.editor.pause();
    }

    /// Ends a pause. Takes no memory.
    pub fn resume(&mut self)
        ensures { self.new ≡ resume self.old }
    {
        self.editor.resume();
    }

    /// Forgets what can be undone and redone. Takes no memory.
    pub fn clear(&mut self)
        ensures { self.new ≡ clear self.old }
    {
        self.editor.clear();
    }

    /// Merges a patch into the own presence; with `in_history` what takes it back is noted. Never answers
    /// `NotConnected`. A refused call changes nothing.
    pub fn presence(
        &mut self,
        alloc: Global,
        patch: &Members,
        in_history: bool,
    ) -> Result<(), SayFault>
        ensures ok { OnOk result (presence self.old patch.now in_history ≡ Ok self.new) }
        ensures fault { IfErr result (IsSayFault (presence self.old patch.now in_history)) }
        ensures err { OnErr result (self.new ≡ self.old) }
    {
        self.editor.presence(alloc, patch, in_history)
    }

    /// Queues an event for all others. A refused call changes nothing.
    pub fn event(&mut self, alloc: Global, e: &Json) -> Result<(), SayFault>
        ensures ok { OnOk result (event self.old e.now ≡ Ok self.new) }
        ensures fault { IfErr result (IsSayFault (event self.old e.now)) }
        ensures err { OnErr result (self.new ≡ self.old) }
    {
        if !is_on(self.stage) {
            return Err(SayFault::NotConnected);
        }
        check_event(alloc, e)?;
        self.events.push(e.copy(alloc)?)?;
        Ok(())
    }
}
