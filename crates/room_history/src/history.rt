//! The undo list, the redo list, and the bag of a pause.
ghost use Rattle.std.specs.Prelude.{◌≡◌, ◌∷◌, ◌++◌, ◌+◌, ◌≤◌, None, take, IfOk, OnOk, OnErr, IsOk, IsSome};
ghost use Rattle.std.specs.Option.{option_copied};
ghost use Rattle.std.specs.VecDeque.{deque_len, deque_capacity};
ghost use Rattle.room_model.specs.History as history;

use room_json::{NoMemory, Seq};
use room_nodes::Changes;
use std::alloc::Global;
use std::collections::VecDeque;
use std::marker::Model;

/// How many entries the undo list keeps.
pub const MAX_ENTRIES: usize = 50;

/// What can be undone and redone. An entry is a list of changes that go back, the newest first. While there is a pause,
/// what is noted goes into its bag; a bag that holds anything is the last entry. Contracts see both lists, each with
/// its newest entry first, and the bag.
#[derive(Drop)]
pub struct History {
    undo: VecDeque<Changes>,
    redo: VecDeque<Changes>,
    bag: Option<Changes>,
}

impl Model for History {
    ghost use Rattle.std.specs.Coded.{codes};
    ghost use Rattle.std.specs.VecDeque.{deque_len as len, deque_capacity as places};
    ghost use Rattle.room_model.specs.History.{History as Lists};
    ghost use Rattle.room_history.specs.Places.{IsBounded};
    ghost use Rattle.room_nodes.specs.contracts.nodes.Change as change;

    ghost Value = { Lists };

    ghost coded = { Prim.hlevel (codes, change.the_row.coded) };

    ghost view = { λ h. record { undo = h.undo.items; redo = h.redo.items; bag = h.bag } };

    ghost invariant = { λ h. IsBounded (places h.undo) (len h.undo) (places h.redo) (len h.redo) h.bag };
}

/// Puts an entry in front, and lets the oldest go where there are too many.
fn put_newest(entries: &mut VecDeque<Changes>, entry: Changes)
    requires { 50 ≤ deque_capacity entries.old }
    ensures items { entries.new.items ≡ take 50 (entry ∷ entries.old.items) }
    ensures len { deque_len entries.new ≤ 50 }
    ensures more { deque_len entries.new ≤ deque_len entries.old + 1 }
    ensures capacity { deque_capacity entries.new ≡ deque_capacity entries.old }
{
    entries.truncate(MAX_ENTRIES - 1);
    entries.push_front(entry).unwrap();
}

/// Puts changes in front of those of a bag. A refused call changes nothing.
fn put_before(bag: &mut Changes, changes: Changes) -> Result<(), NoMemory>
    ensures ok { OnOk result (bag.new ≡ changes ++ bag.old) }
    ensures err { OnErr result (bag.new ≡ bag.old) }
{
    let mut all = changes.into_vec();
    all.reserve(bag.len() as usize)?;
    let alloc = *all.allocator();
    let mut rest = std::mem::replace(bag, Seq::new(alloc)).into_vec();
    all.append(&mut rest).unwrap();
    *bag = Seq::from_vec(all);
    Ok(())
}

impl History {
    /// No entries, with room for those that both lists can hold.
    pub fn new(alloc: Global) -> Result<History, NoMemory>
        ensures { IfOk result (λ h. h ≡ history.empty_history) }
    {
        Ok(History {
            undo: VecDeque::with_capacity(alloc, MAX_ENTRIES)?,
            redo: VecDeque::with_capacity(alloc, MAX_ENTRIES)?,
            bag: None,
        })
    }

    /// Notes what takes an edit back, unless it is empty, and clears the redo list. While there is a pause this moves
    /// the changes of the bag, and a call that is refused for memory changes nothing; else it can't be refused.
    pub fn note(&mut self, entry: Changes) -> Result<(), NoMemory>
        ensures ok { OnOk result (self.new ≡ history.note entry self.old) }
        ensures err { OnErr result (self.new ≡ self.old) }
        ensures sure { self.old.bag ≡ None → IsOk result }
    {
        if entry.len() == 0 {
            return Ok(());
        }
        match &mut self.bag {
            Some(bag) => put_before(bag, entry)?,
            None => put_newest(&mut self.undo, entry),
        }
        self.redo.clear();
        Ok(())
    }

    /// What an undo takes back: the bag, where it holds anything, or the newest entry.
    pub fn undo_entry(&self) -> Option<&Changes>
        ensures { option_copied result ≡ history.undo_entry self.now }
    {
        match &self.bag {
            Some(bag) if bag.len() > 0 => Some(bag),
            _ => self.undo.front(),
        }
    }

    /// What a redo takes back: the newest reversal of an undo.
    pub fn redo_entry(&self) -> Option<&Changes>
        ensures { option_copied result ≡ history.redo_entry self.now }
    {
        self.redo.front()
    }

    /// The last entry was undone, and `redo` takes that back. It ends a pause.
    pub fn undone(&mut self, redo: Changes)
        requires { IsSome (history.undo_entry self.old) }
        ensures { self.new ≡ history.undone redo self.old }
    {
        self.resume();
        drop(self.undo.pop_front());
        self.redo.push_front(redo).unwrap();
    }

    /// The newest undone entry was redone, and `undo` takes that back. It ends a pause.
    pub fn redone(&mut self, undo: Changes)
        requires { IsSome (history.redo_entry self.old) }
        ensures { self.new ≡ history.redone undo self.old }
    {
        self.resume();
        drop(self.redo.pop_front());
        put_newest(&mut self.undo, undo);
    }

    /// Begins a pause with an empty bag, where there is none.
    pub fn pause(&mut self)
        ensures { self.new ≡ history.pause self.old }
    {
        if self.bag.is_none() {
            self.bag = Some(Seq::new(*self.undo.allocator()));
        }
    }

    /// Ends a pause: what the bag holds becomes an entry.
    pub fn resume(&mut self)
        ensures { self.new ≡ history.resume self.old }
    {
        if let Some(bag) = self.bag.take() {
            if bag.len() > 0 {
                put_newest(&mut self.undo, bag);
            }
        }
    }

    /// Empties both lists and the bag. A pause goes on.
    pub fn clear(&mut self)
        ensures { self.new ≡ history.clear self.old }
    {
        self.undo.clear();
        self.redo.clear();
        if self.bag.is_some() {
            self.bag = Some(Seq::new(*self.undo.allocator()));
        }
    }

    /// How many entries can be undone. A bag that holds anything is one.
    pub fn undo_count(&self) -> u64
        ensures { result ≡ history.undo_count self.now }
    {
        let paused = match &self.bag {
            Some(bag) => u64::from(bag.len() > 0),
            None => 0,
        };
        self.undo.len() as u64 + paused
    }

    /// How many entries can be redone.
    pub fn redo_count(&self) -> u64
        ensures { result ≡ history.redo_count self.now }
    {
        self.redo.len() as u64
    }
}
