//! What can be undone and redone, noted without fail.
ghost use Rattle.std.specs.Prelude.{◌≡◌, ◌≤◌, ◌+◌, length, vec_len, vec_capacity, true, IsSome, IfOk};
ghost use Rattle.std.specs.Option.{option_copied};
ghost use Rattle.room_model.specs.History as history;
ghost use Rattle.room_editor.specs.Past.{bag_length};

use room_history::History;
use room_json::{NoMemory, Seq};
use room_nodes::{Change, Changes};
use std::alloc::Global;
use std::marker::Model;

/// What can be undone and redone. Contracts see the history.
///
/// The bag of a pause is kept beside the lists, so that the memory for noting is had before anything changes.
#[derive(Drop)]
pub(crate) struct Past {
    lists: History,
    bag: Vec<Change>,
    paused: bool,
}

impl Model for Past {
    ghost use Rattle.std.specs.Prelude.{◌≡◌, ◌≤◌, length, false, None, []};
    ghost use Rattle.room_model.specs.History.{History as Lists};
    ghost use Rattle.room_editor.specs.Codes.{history_code};
    ghost use Rattle.room_editor.specs.Past.{past_of};

    ghost Value = { Lists };

    ghost coded = { history_code };

    ghost view = { λ p. past_of p.lists p.paused p.bag.items };

    ghost invariant = { λ p.
        (p.lists.bag ≡ None) × ((length p.lists.undo ≤ 50) × (p.paused ≡ false → p.bag.items ≡ [])) };
}

impl Past {
    /// No entries.
    pub(crate) fn new(alloc: Global) -> Result<Past, NoMemory>
        ensures { IfOk result (λ p. p ≡ history.empty_history) }
    {
        Ok(Past {
            lists: History::new(alloc)?,
            bag: Vec::new(alloc),
            paused: false,
        })
    }

    /// How many changes a pause has gathered.
    pub(crate) fn gathered(&self) -> usize
        ensures { result ≡ bag_length self.now }
    {
        self.bag.len()
    }

    /// Changes with room for those of the bag behind them.
    pub(crate) fn ready(&self, changes: Changes) -> Result<Vec<Change>, NoMemory>
        ensures items { IfOk result (λ v. v.items ≡ changes) }
        ensures room { IfOk result (λ v. vec_len v + bag_length self.now ≤ vec_capacity v) }
    {
        let mut all = changes.into_vec();
        all.reserve(self.bag.len())?;
        Ok(all)
    }

    /// Notes changes that were made ready, unless there is none.
    pub(crate) fn note(&mut self, changes: Vec<Change>)
        requires { vec_len changes + bag_length self.old ≤ vec_capacity changes }
        ensures { self.new ≡ history.note changes.items self.old }
    {
        if changes.is_empty() {
            return;
        }
        if self.paused {
            let mut all = changes;
            all.append(&mut self.bag).unwrap();
            self.bag = all;
        } else {
            self.lists.note(Seq::from_vec(changes)).unwrap();
        }
    }

    /// What an undo takes back.
    pub(crate) fn undo_entry(&self) -> Option<&[Change]>
        ensures { option_copied result ≡ history.undo_entry self.now }
    {
        if !self.bag.is_empty() {
            return Some(self.bag.as_slice());
        }
        match self.lists.undo_entry() {
            Some(entry) => Some(entry.as_slice()),
            None => None,
        }
    }

    /// What a redo takes back.
    pub(crate) fn redo_entry(&self) -> Option<&[Change]>
        ensures { option_copied result ≡ history.redo_entry self.now }
    {
        if !self.bag.is_empty() {
            return None;
        }
        match self.lists.redo_entry() {
            Some(entry) => Some(entry.as_slice()),
            None => None,
        }
    }

    /// The last entry was undone, and `redo` takes that back. It ends a pause.
    pub(crate) fn undone(&mut self, redo: Changes)
        requires { IsSome (history.undo_entry self.old) }
        ensures { self.new ≡ history.undone redo self.old }
    {
        self.resume();
        self.lists.undone(redo);
    }

    /// The newest undone entry was redone, and `undo` takes that back. It ends a pause.
    pub(crate) fn redone(&mut self, undo: Changes)
        requires { IsSome (history.redo_entry self.old) }
        ensures { self.new ≡ history.redone undo self.old }
    {
        self.resume();
        self.lists.redone(undo);
    }

    /// Begins a pause, where there is none.
    pub(crate) fn pause(&mut self)
        ensures { self.new ≡ history.pause self.old }
    {
        self.paused = true;
    }

    /// Ends a pause: what was gathered becomes an entry.
    pub(crate) fn resume(&mut self)
        ensures { self.new ≡ history.resume self.old }
    {
        self.paused = false;
        let alloc = *self.bag.allocator();
        let bag = std::mem::replace(&mut self.bag, Vec::new(alloc));
        self.lists.note(Seq::from_vec(bag)).unwrap();
    }

    /// Empties the lists, and what was gathered. A pause goes on.
    pub(crate) fn clear(&mut self)
        ensures { self.new ≡ history.clear self.old }
    {
        self.lists.clear();
        self.bag.clear();
    }

    /// How many entries can be undone.
    pub(crate) fn undo_count(&self) -> u64
        ensures { result ≡ history.undo_count self.now }
    {
        self.lists.undo_count() + u64::from(!self.bag.is_empty())
    }

    /// How many entries can be redone.
    pub(crate) fn redo_count(&self) -> u64
        ensures { result ≡ history.redo_count self.now }
    {
        if self.bag.is_empty() {
            self.lists.redo_count()
        } else {
            0
        }
    }
}
