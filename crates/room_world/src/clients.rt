//! Lines of clients that stay with the client: what its user does, and what is asked of it.
ghost use Rattle.std.specs.Prelude.{◌≡◌, [], ◌∷◌, IfOk};
ghost use Rattle.room_model.specs.Lines.{OfClient, AsksClient};
ghost use Rattle.room_model.specs.Lines as model;
ghost use Rattle.room_props.specs.Edits.{edit_of};
ghost use Rattle.room_slots.specs.Asking.{question_of};
ghost use Rattle.room_slots.specs.Slots.{line_in};
ghost use Rattle.room_world.specs.Did.{Does};

use crate::world::World;
use room_fuse::Stopping;
use room_json::{Json, Members, Names, NoMemory, Seq, Text};
use room_props::Edit;
use room_slots::Question;
use room_tree::Tree;
use std::alloc::Global;

/// The lines of a call that writes one, or none.
fn lines_of(alloc: Global, line: Option<Text>) -> Result<Names, NoMemory>
    ensures { IfOk result (λ ls. ls ≡ line_in line) }
{
    match line {
        Some(line) => only(alloc, line),
        None => Ok(Seq::new(alloc)),
    }
}

/// One line.
pub(crate) fn only(alloc: Global, line: Text) -> Result<Names, NoMemory>
    ensures { IfOk result (λ ls. ls ≡ line ∷ []) }
{
    let mut lines = Seq::new(alloc);
    lines.push(line)?;
    Ok(lines)
}

#[tactic(auto, using(crate::proofs::Calling::called))]
impl<T: Tree, D: Stopping> World<T, D> {
    /// Makes an edit.
    pub(crate) fn edit(
        &mut self,
        alloc: Global,
        number: u64,
        c: u64,
        e: &Edit,
    ) -> Result<Names, NoMemory>
        ensures does { IfOk result (Does self.old self.new number (OfClient c (model.Edits (edit_of e.now)))) }
        ensures opened { self.new.opened ≡ self.old.opened }
        ensures hosting { self.new.hosting ≡ self.old.hosting }
    {
        let line = self.slots.edit(alloc, number, c, e)?;
        lines_of(alloc, line)
    }

    /// Opens a batch.
    pub(crate) fn begin(&mut self, alloc: Global, number: u64, c: u64) -> Result<Names, NoMemory>
        ensures does { IfOk result (Does self.old self.new number (OfClient c model.Begin)) }
        ensures opened { self.new.opened ≡ self.old.opened }
        ensures hosting { self.new.hosting ≡ self.old.hosting }
    {
        let line = self.slots.begin(alloc, number, c)?;
        lines_of(alloc, line)
    }

    /// Ends the open batch.
    pub(crate) fn end(&mut self, alloc: Global, number: u64, c: u64) -> Result<Names, NoMemory>
        ensures does { IfOk result (Does self.old self.new number (OfClient c model.End)) }
        ensures opened { self.new.opened ≡ self.old.opened }
        ensures hosting { self.new.hosting ≡ self.old.hosting }
    {
        let line = self.slots.end(alloc, number, c)?;
        lines_of(alloc, line)
    }

    /// Takes the last entry of the history back.
    pub(crate) fn undo(&mut self, alloc: Global, number: u64, c: u64) -> Result<Names, NoMemory>
        ensures does { IfOk result (Does self.old self.new number (OfClient c model.Undo)) }
        ensures opened { self.new.opened ≡ self.old.opened }
        ensures hosting { self.new.hosting ≡ self.old.hosting }
    {
        let line = self.slots.undo(alloc, number, c)?;
        lines_of(alloc, line)
    }

    /// Takes the last undo back.
    pub(crate) fn redo(&mut self, alloc: Global, number: u64, c: u64) -> Result<Names, NoMemory>
        ensures does { IfOk result (Does self.old self.new number (OfClient c model.Redo)) }
        ensures opened { self.new.opened ≡ self.old.opened }
        ensures hosting { self.new.hosting ≡ self.old.hosting }
    {
        let line = self.slots.redo(alloc, number, c)?;
        lines_of(alloc, line)
    }

    /// Begins a pause.
    pub(crate) fn pause(&mut self, alloc: Global, number: u64, c: u64) -> Result<Names, NoMemory>
        ensures does { IfOk result (Does self.old self.new number (OfClient c model.Pause)) }
        ensures opened { self.new.opened ≡ self.old.opened }
        ensures hosting { self.new.hosting ≡ self.old.hosting }
    {
        let line = self.slots.pause(alloc, number, c)?;
        lines_of(alloc, line)
    }

    /// Ends a pause.
    pub(crate) fn resume(&mut self, alloc: Global, number: u64, c: u64) -> Result<Names, NoMemory>
        ensures does { IfOk result (Does self.old self.new number (OfClient c model.Resume)) }
        ensures opened { self.new.opened ≡ self.old.opened }
        ensures hosting { self.new.hosting ≡ self.old.hosting }
    {
        let line = self.slots.resume(alloc, number, c)?;
        lines_of(alloc, line)
    }

    /// Forgets what can be undone and redone.
    pub(crate) fn clear(&mut self, alloc: Global, number: u64, c: u64) -> Result<Names, NoMemory>
        ensures does { IfOk result (Does self.old self.new number (OfClient c model.Clear)) }
        ensures opened { self.new.opened ≡ self.old.opened }
        ensures hosting { self.new.hosting ≡ self.old.hosting }
    {
        let line = self.slots.clear(alloc, number, c)?;
        lines_of(alloc, line)
    }

    /// Merges a patch into the own presence.
    pub(crate) fn presence(
        &mut self,
        alloc: Global,
        number: u64,
        c: u64,
        patch: &Members,
        in_history: bool,
    ) -> Result<Names, NoMemory>
        ensures does { IfOk result (Does self.old self.new number (OfClient c (model.Presence patch.now in_history))) }
        ensures opened { self.new.opened ≡ self.old.opened }
        ensures hosting { self.new.hosting ≡ self.old.hosting }
    {
        let line = self.slots.presence(alloc, number, c, patch, in_history)?;
        lines_of(alloc, line)
    }

    /// Queues an event for all others.
    pub(crate) fn event(
        &mut self,
        alloc: Global,
        number: u64,
        c: u64,
        e: &Json,
    ) -> Result<Names, NoMemory>
        ensures does { IfOk result (Does self.old self.new number (OfClient c (model.Event e.now))) }
        ensures opened { self.new.opened ≡ self.old.opened }
        ensures hosting { self.new.hosting ≡ self.old.hosting }
    {
        let line = self.slots.event(alloc, number, c, e)?;
        lines_of(alloc, line)
    }

    /// What is asked of a client, which changes nothing.
    pub(crate) fn ask(
        &self,
        alloc: Global,
        number: u64,
        c: u64,
        question: Question,
    ) -> Result<Names, NoMemory>
        ensures { IfOk result (Does self.now self.now number (AsksClient c (question_of question))) }
    {
        let line = self.slots.ask(alloc, c, question)?;
        only(alloc, line)
    }
}
