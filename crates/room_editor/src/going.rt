//! Undo and redo.
ghost use Rattle.std.specs.Prelude.{◌≡◌, ◌+◌, ◌++◌, [], IfSome, Some, None, Ok, is_some, true, option_map, IfOk, IfErr};
ghost use Rattle.std.specs.Prelude.{OnOk, OnErr};
ghost use Rattle.std.specs.Option.{option_copied};
ghost use Rattle.room_log.specs.Log.{bodies_of, ops_from};
ghost use Rattle.room_model.specs.Account.{actor, last_issued, shown};
ghost use Rattle.room_model.specs.Calls.{go_back as go_back_of, Direction, Undo as GoUndo, Redo as GoRedo, pause};
ghost use Rattle.room_model.specs.Calls.{resume};
ghost use Rattle.room_model.specs.Calls.{clear, entry_of, entry_bodies, entry_presence, entry_names, entry_reversal};
ghost use Rattle.room_model.specs.Calls.{back_entry, issues_of, went_back, tree_or_bare};
ghost use Rattle.room_model.specs.Notices.{notices_of_all};
ghost use Rattle.room_notice.specs.Notices.{notices_in};
ghost use Rattle.room_editor.specs.Editor.{WentBack};
ghost use Rattle.room_editor.specs.Faults.{IsUndoFault};
ghost use Rattle.room_editor.specs.Going.{way_of, FitsIn, IsOpsFault, returned};
ghost use Rattle.room_editor.specs.Standing.{ArePatches};

use crate::editor::Editor;
use crate::entries::{bodies, names_after, presence_after, reversal};
use crate::faults::UndoFault;
use crate::putting::issue;
use crate::sizes::{frame_bytes, presence_bytes, with_ops};
use crate::telling::told;
use room_json::{Members, Names, NoMemory};
use room_msg::MAX_FRAME;
use room_nodes::{Change, Changes, Op, Ops};
use room_notice::Notices;
use room_props::{EditFault, finish};
use room_tree::{Tree, copy_of};
use std::alloc::Global;

/// Which way an entry goes.
#[derive(Clone, Copy, Debug, PartialEq, Eq)]
pub(crate) enum Way {
    Undo,
    Redo,
}

/// What an entry makes as it goes back.
#[derive(Drop)]
pub(crate) struct Return {
    ops: Ops,
    me: Members,
    unsent: Names,
    reversal: Changes,
    notices: Notices,
}

#[tactic(auto, using(crate::proofs::Patches::stands))]
impl<T: Tree> Editor<T> {
    /// The tree that is shown, or the bare one, to work on.
    fn base(&self, alloc: Global) -> Result<T, NoMemory>
        ensures { IfOk result (λ t. T.nodes t ≡ tree_or_bare (shown self.now)) }
    {
        match self.shown() {
            Some(t) => copy_of(alloc, t),
            None => T::empty(alloc),
        }
    }

    /// What operations change in the view, or in that of the bare tree.
    fn base_notices(&self, alloc: Global, ops: &[Op]) -> Result<Notices, NoMemory>
        ensures { IfOk result (λ ns. notices_in ns
            ≡ notices_of_all (tree_or_bare (shown self.now)) (bodies_of ops.now)) }
    {
        match self.shown() {
            Some(t) => told(alloc, t, ops),
            None => told(alloc, &T::empty(alloc)?, ops),
        }
    }

    /// The entry that goes that way.
    fn entry(&self, way: Way) -> Option<&[Change]>
        ensures entry { option_copied result ≡ entry_of (way_of way) self.now.history }
        ensures patches { self.now.confirmed ≡ None → IfSome result (λ e. ArePatches e.now) }
    {
        match way {
            Way::Undo => self.past.undo_entry(),
            Way::Redo => self.past.redo_entry(),
        }
    }

    /// An entry's operations with new clocks, unless these are spent or their frame is too large.
    fn entry_ops(&self, alloc: Global, entry: &[Change]) -> Result<Ops, UndoFault>
        requires { self.now.batch ≡ None }
        ensures ok { IfOk result (λ os.
            os ≡ ops_from (actor self.now) (last_issued self.now + 1) (entry_bodies entry.now)) }
        ensures fits { OnOk result (FitsIn self.now (entry_bodies entry.now)) }
        ensures err { IfErr result (IsOpsFault self.now (entry_bodies entry.now)) }
    {
        let clocks = self.clocks();
        let bodies = bodies(alloc, entry)?;
        match finish(alloc, &clocks, 0, bodies) {
            Ok(made) => {
                let bytes = with_ops(alloc, 0, made.ops.as_slice())?;
                let size = frame_bytes(bytes)?;
                if made.ops.len() > 0 && size > MAX_FRAME {
                    return Err(UndoFault::BatchTooLarge(size));
                }
                Ok(made.ops)
            }
            Err(EditFault::ClocksSpent(last)) => Err(UndoFault::ClocksSpent(last)),
            Err(_) => Err(UndoFault::Memory),
        }
    }

    #[tactic(auto, using(crate::proofs::Pending::bodies_again))]
    /// What an entry makes as it goes back, or why it can't. The tree is copied.
    fn prepared(&self, alloc: Global, entry: &[Change]) -> Result<Return, UndoFault>
        requires closed { self.now.batch ≡ None }
        requires patches { self.now.confirmed ≡ None → ArePatches entry.now }
        ensures ops { IfOk result (λ r.
            r.ops ≡ ops_from (actor self.now) (last_issued self.now + 1) (entry_bodies entry.now)) }
        ensures me { IfOk result (λ r. r.me ≡ entry_presence self.now.me entry.now) }
        ensures unsent { IfOk result (λ r. r.unsent ≡ entry_names self.now.unsent entry.now) }
        ensures reversal { IfOk result (λ r.
            r.reversal ≡ entry_reversal (tree_or_bare (shown self.now)) self.now.me entry.now) }
        ensures notices { IfOk result (λ r. notices_in r.notices
            ≡ notices_of_all (tree_or_bare (shown self.now)) (entry_bodies entry.now)) }
        ensures good { OnOk result ((way : Direction) → back_entry way self.now (Some entry.now)
            ≡ Ok (Some (went_back way self.now entry.now))) }
        ensures bare { IfOk result (λ r. self.now.confirmed ≡ None → bodies_of r.ops ≡ []) }
        ensures patches { IfOk result (λ r. self.now.confirmed ≡ None → ArePatches r.reversal) }
        ensures err { IfErr result (λ f. (way : Direction) → IsUndoFault (back_entry way self.now (Some entry.now)) f) }
    {
        let ops = self.entry_ops(alloc, entry)?;
        let me = presence_after(alloc, self.me(), entry)?;
        let size = presence_bytes(alloc, &me)?;
        if size > MAX_FRAME {
            return Err(UndoFault::TooLarge(size));
        }
        Ok(Return {
            unsent: names_after(alloc, self.unsent_keys(), entry)?,
            reversal: reversal(alloc, self.base(alloc)?, self.me(), entry)?,
            notices: self.base_notices(alloc, ops.as_slice())?,
            ops,
            me,
        })
    }

    /// Operations are a batch of their own, if there are any. A refused call changes nothing.
    fn issue_ops(&mut self, alloc: Global, ops: &Ops) -> Result<(), NoMemory>
        requires closed { self.old.batch ≡ None }
        requires ops { ops.now ≡ ops_from (actor self.old) (last_issued self.old + 1) (bodies_of ops.now) }
        requires bare { self.old.confirmed ≡ None → bodies_of ops.now ≡ [] }
        ensures ok { OnOk result
            (self.new ≡ record self.old { fresh = self.old.fresh ++ issues_of self.old (bodies_of ops.now) }) }
        ensures err { OnErr result (self.new ≡ self.old) }
    {
        if ops.len() == 0 {
            return Ok(());
        }
        let Some(over) = &mut self.over else {
            unreachable!()
        };
        issue(alloc, over, ops)?;
        Ok(())
    }

    /// The entry goes back. A refused call changes nothing.
    fn perform(&mut self, alloc: Global, way: Way, change: Return) -> Result<Notices, NoMemory>
        requires closed { self.old.batch ≡ None }
        requires entry { is_some (entry_of (way_of way) self.old.history) ≡ true }
        requires ops { change.ops ≡ ops_from (actor self.old) (last_issued self.old + 1) (bodies_of change.ops) }
        requires bare { self.old.confirmed ≡ None → bodies_of change.ops ≡ [] }
        requires patches { self.old.confirmed ≡ None → ArePatches change.reversal }
        ensures ok { OnOk result (self.new ≡ returned (way_of way) self.old (bodies_of change.ops) change.me
            change.unsent change.reversal) }
        ensures notices { IfOk result (λ ns. ns ≡ change.notices) }
        ensures err { OnErr result (self.new ≡ self.old) }
    {
        let Return {
            ops,
            me,
            unsent,
            reversal,
            notices,
        } = change;
        self.issue_ops(alloc, &ops)?;
        self.me = me;
        self.unsent = unsent.into_vec();
        match way {
            Way::Undo => self.past.undone(reversal),
            Way::Redo => self.past.redone(reversal),
        }
        Ok(notices)
    }

    fn go_back(&mut self, alloc: Global, way: Way) -> Result<Option<Notices>, UndoFault>
        ensures ok { IfOk result (λ ns.
            WentBack (go_back_of (way_of way) self.old) self.old self.new (option_map notices_in ns)) }
        ensures fault { IfErr result (IsUndoFault (go_back_of (way_of way) self.old)) }
        ensures err { OnErr result (self.new ≡ self.old) }
    {
        if self.is_open() {
            return Err(UndoFault::InBatch);
        }
        let Some(entry) = self.entry(way) else {
            return Ok(None);
        };
        let change = self.prepared(alloc, entry)?;
        let notices = self.perform(alloc, way, change)?;
        Ok(Some(notices))
    }

    /// Takes the last entry back, and answers what that changes in the view: its operations are one batch with new
    /// clocks, its patches are merged. None where there is no entry. A refused call changes nothing.
    pub fn undo(&mut self, alloc: Global) -> Result<Option<Notices>, UndoFault>
        ensures ok { IfOk result (λ ns.
            WentBack (go_back_of GoUndo self.old) self.old self.new (option_map notices_in ns)) }
        ensures fault { IfErr result (IsUndoFault (go_back_of GoUndo self.old)) }
        ensures err { OnErr result (self.new ≡ self.old) }
    {
        self.go_back(alloc, Way::Undo)
    }

    /// Makes again what the last undo took back, likewise.
    pub fn redo(&mut self, alloc: Global) -> Result<Option<Notices>, UndoFault>
        ensures ok { IfOk result (λ ns.
            WentBack (go_back_of GoRedo self.old) self.old self.new (option_map notices_in ns)) }
        ensures fault { IfErr result (IsUndoFault (go_back_of GoRedo self.old)) }
        ensures err { OnErr result (self.new ≡ self.old) }
    {
        self.go_back(alloc, Way::Redo)
    }

    /// From now on what is noted gathers in one entry, until the pause ends. Does nothing in a pause.
    pub fn pause(&mut self)
        ensures { self.new ≡ pause self.old }
    {
        self.past.pause();
    }

    /// Ends a pause.
    pub fn resume(&mut self)
        ensures { self.new ≡ resume self.old }
    {
        self.past.resume();
    }

    /// Forgets what can be undone and redone. A pause goes on.
    pub fn clear(&mut self)
        ensures { self.new ≡ clear self.old }
    {
        self.past.clear();
    }
}
