//! The store of a room: its state, and the two files that hold it.
ghost use Rattle.std.specs.Prelude.{◌≡◌, ◌⊎◌, ◌≤◌, ◌<◌, ◌^◌, ◌+◌, ℕ, true, false, Some, None};
ghost use Rattle.std.specs.Prelude.{IfOk, IfErr, IfSome, OnOk, OnErr, IsErr, IsErrOf, IsSome};
ghost use Rattle.room_disk.specs.Model.{Within, WithinWhole};
ghost use Rattle.room_nodes.specs.Shape.{empty_tree};
ghost use Rattle.room_log.specs.Log.{State};
ghost use Rattle.room_log.specs.Follows.{IsValidState, most};
ghost use Rattle.room_journal.specs.Appends.{IsClean};
ghost use Rattle.room_journal.specs.Files.{reading};
ghost use Rattle.room_replay.specs.Files.{Stands, StandsFor, files};
ghost use Rattle.room_store.specs.Calls.{Compacts, Commits, CommitsOrStops};
ghost use Rattle.room_store.specs.Consistent.{BeforeOr, Since, Elsewhere, IsStill};
ghost use Rattle.room_store.specs.Faults.{IsFault, HasDiskCause, IsBroken, IsBrokenOrFull};
ghost use Rattle.room_store.specs.Stored.{held, IsOpen, IsOnDisk};

use crate::fault::StoreFault;
use crate::group::Group;
use crate::kept::Kept;
use crate::limits::Limits;
use crate::starting::start;
use crate::undo::{Undo, undo_all};
use room_disk::{Disk, Stop};
use room_snapshot::Snapshot;
use room_tree::Tree;
use std::alloc::Global;
use std::marker::Model;

/// A room's state, its files, and its limits. Contracts see where the files go on, what broke them, the state after the
/// group that is open, the state before it, and the limits.
///
/// There is one tree, the one that is shown. What takes it back to the state before the group is kept beside it.
#[derive(Drop)]
pub struct Store<T: Tree> {
    pub(crate) kept: Kept,
    /// The state shown, after the group that is open.
    pub(crate) state: Snapshot<T>,
    /// What takes the entries of the group back; nothing where none is open.
    pub(crate) undo: Vec<Undo>,
    pub(crate) limits: Limits,
}

impl<T: Tree> Model for Store<T> {
    ghost use Rattle.std.specs.Prelude.{◌+◌};
    ghost use Rattle.std.specs.FinMap.{len};
    ghost use Rattle.room_snapshot.specs.Bounds.{state_of};
    ghost use Rattle.room_store.specs.Codes.{stored_code};
    ghost use Rattle.room_store.specs.Stored.{Stored};
    ghost use Rattle.room_store.specs.Undoing.{before_of, IsWhole};

    ghost Value = { Stored };

    ghost coded = { stored_code };

    ghost view = { λ s. record {
      place = s.kept.journal;
      broken = s.kept.broken;
      state = state_of s.state.count s.state.sessions (T.Tree.nodes s.state.tree);
      before = before_of (state_of s.state.count s.state.sessions (T.Tree.nodes s.state.tree)) s.undo.items;
      limits = s.limits;
    } };

    ghost invariant = { λ s. IsWhole (len (T.Tree.nodes s.state.tree) + T.Tree.spare s.state.tree)
        (state_of s.state.count s.state.sessions (T.Tree.nodes s.state.tree)) s.undo.items s.limits };
}

impl<T: Tree> Store<T> {
    /// Puts both files as they read beyond any stop, by one call each, and recovers the state that they stand for. A
    /// new room, and one of the older format, is then written as a file of the next generation. Needs an empty tree.
    pub fn recover<D: Disk>(
        alloc: Global,
        disk: &mut D,
        base: u32,
        empty: T,
        limits: Limits,
    ) -> Result<Store<T>, StoreFault>
        requires base { base + 1 < 2 ^ 32 }
        requires empty { T.nodes empty ≡ empty_tree }
        requires limits { limits.updates ≤ most }

        ensures base { IfOk result (λ s. s.place.base ≡ base) }
        ensures whole { IfOk result (λ s. s.broken ≡ None) }
        ensures closed { IfOk result (λ s. s.before ≡ None) }
        ensures limits { IfOk result (λ s. s.limits ≡ limits) }
        // It is the state that the files stand for as they read, and it is on the disk.
        ensures state { D.tells ≡ true → IfOk result (λ s.
            Stands s.state (files base (D.seen disk.old base) (D.seen disk.old (base + 1)))) }
        ensures settled { D.tells ≡ true → IfOk result (λ s.
            IsOnDisk (D.seen disk.new) (D.images disk.new (D.moment disk.new)) s) }
        // At each moment each image is one from before the call, or stands for that state.
        ensures any_moment { D.tells ≡ true → (s : State)
            → Stands s (files base (D.seen disk.old base) (D.seen disk.old (base + 1)))
            → WithinWhole D.moment D.images disk.old disk.new
            (BeforeOr (D.images disk.old (D.moment disk.old)) (StandsFor base s)) }
        // At each moment since the two syncs each image stands for it.
        ensures since { D.tells ≡ true → IfOk result (λ s.
            Since (D.moment disk.old + 2) (D.moment disk.new) (D.images disk.new) (StandsFor base s.state)) }
        ensures others { D.tells ≡ true → (f : ℕ) → (f ≡ base → ⊥) → (f ≡ base + 1 → ⊥)
            → D.seen disk.new f ≡ D.seen disk.old f }
        ensures elsewhere { D.tells ≡ true → Within D.moment D.images disk.old disk.new
            (Elsewhere base (D.images disk.old (D.moment disk.old))) }
        // However it ends, it makes no more calls than the two syncs and those of a compaction; where no file is made,
        // the two syncs alone, and each image is one from before the call.
        ensures bound { D.tells ≡ true → D.moment disk.new ≤ D.moment disk.old + 8 }
        ensures two { D.tells ≡ true → IsStill (reading base (D.seen disk.old base) (D.seen disk.old (base + 1)))
            → D.moment disk.new ≤ D.moment disk.old + 2 }
        ensures counted { D.tells ≡ true
            → IsStill (reading base (D.seen disk.old base) (D.seen disk.old (base + 1)))
            → OnOk result (D.moment disk.new ≡ D.moment disk.old + 2) }
        ensures still { D.tells ≡ true → IsStill (reading base (D.seen disk.old base) (D.seen disk.old (base + 1)))
            → Within D.moment D.images disk.old disk.new (D.images disk.old (D.moment disk.old)) }
        ensures fault { D.tells ≡ true → IfErr result (λ e. (e ≡ StoreFault.Disk)
            ⊎ IsFault (files base (D.seen disk.old base) (D.seen disk.old (base + 1))) e) }
        ensures stop_fails { D.stopped disk.old ≡ false → D.stopped disk.new ≡ true → IsErr result }
        ensures clean { D.tells ≡ true → D.stops ≡ true → D.stopped disk.old ≡ false
            → IsClean D.seen D.leaves disk.old → OnOk result (IsClean D.seen D.leaves disk.new) }
        ensures came { D.came disk.old disk.new }
        ensures cause { HasDiskCause D.faults D.inner_faults D.stopped disk.old disk.new result }
    {
        match start(alloc, disk, base, empty) {
            Ok(begun) => Ok(Store {
                kept: begun.kept,
                state: begun.state,
                undo: Vec::new(alloc),
                limits,
            }),
            Err(fault) => Err(fault),
        }
    }

    /// The state is valid, and so is the one before the group; the limits are in range.
    pub fn valid(&self)
        ensures state { IsValidState self.now.state }
        ensures before { IfSome self.now.before IsValidState }
        ensures limits { self.now.limits.updates ≤ most }
    {
        let _ = &self.limits;
    }

    /// The tree, after the group that is open.
    pub fn tree(&self) -> &T
        ensures { T.nodes result.now ≡ self.now.state.tree }
    {
        &self.state.tree
    }

    /// The number of updates, after the group that is open.
    pub fn count(&self) -> u64
        ensures { result ≡ self.now.state.count }
    {
        self.state.count
    }

    /// Other limits, from the next planning on.
    pub fn set_limits(&mut self, limits: Limits)
        requires { limits.updates ≤ most }
        ensures { self.new ≡ record self.old { limits = limits } }
    {
        self.limits = limits;
    }

    /// Writes the state as the snapshot of a file of the next generation, by six calls, or nothing at the last
    /// generation. No group may be open.
    pub fn compact<D: Disk>(&mut self, alloc: Global, disk: &mut D) -> Result<(), StoreFault>
        requires closed { self.old.before ≡ None }
        requires settled { D.tells ≡ true
            → IsOnDisk (D.seen disk.old) (D.images disk.old (D.moment disk.old)) self.old }

        ensures settled { D.tells ≡ true
            → IsOnDisk (D.seen disk.new) (D.images disk.new (D.moment disk.new)) self.new }
        ensures compacts { D.tells ≡ true → self.old.broken ≡ None
            → Compacts D.seen D.moment D.images self.old.place self.new.place self.old.state disk.old disk.new result }
        ensures base { self.new.place.base ≡ self.old.place.base }
        ensures bound { D.tells ≡ true → D.moment disk.new ≤ D.moment disk.old + 6 }
        ensures state { self.new.state ≡ self.old.state }
        ensures before { self.new.before ≡ None }
        ensures limits { self.new.limits ≡ self.old.limits }
        ensures broken { IsBrokenOrFull self.old.broken self.new.broken result }
        ensures untouched { IsSome self.old.broken → (self.new ≡ self.old) × (disk.new ≡ disk.old) }
        // Out of memory: nothing has changed, unless the disk was out of memory, which breaks the store.
        ensures memory { IsErrOf result StoreFault.Memory → self.new.broken ≡ None
            → (self.new ≡ self.old) × (disk.new ≡ disk.old) }
        ensures short { IsErrOf result StoreFault.Memory → (disk.new ≡ disk.old) ⊎ (D.may_run_out ≡ true) }
        ensures stop_fails { D.stopped disk.old ≡ false → D.stopped disk.new ≡ true → IsErr result }
        ensures clean { D.tells ≡ true → D.stops ≡ true → D.stopped disk.old ≡ false
            → IsClean D.seen D.leaves disk.old → OnOk result (IsClean D.seen D.leaves disk.new) }
        ensures came { D.came disk.old disk.new }
        ensures cause { HasDiskCause D.faults D.inner_faults D.stopped disk.old disk.new result }
    {
        self.kept.compact(alloc, disk, &self.state)
    }

    /// Goes back to the state before the group. Takes no memory.
    pub fn drop_group(&mut self, g: Group)
        ensures state { self.new.state ≡ held self.old }
        ensures closed { self.new.before ≡ None }
        ensures place { self.new.place ≡ self.old.place }
        ensures broken { self.new.broken ≡ self.old.broken }
        ensures limits { self.new.limits ≡ self.old.limits }
    {
        drop(g);
        undo_all(&mut self.state, &mut self.undo);
    }

    /// Puts the group's entries on the disk, by four calls; an empty group by none. Where it answers an Err, the store
    /// goes back to the state before the group. Takes no memory.
    pub fn commit<D: Disk>(&mut self, disk: &mut D, g: Group) -> Result<(), StoreFault>
        requires group { IsOpen self.old g }
        requires settled { D.tells ≡ true
            → IsOnDisk (D.seen disk.old) (D.images disk.old (D.moment disk.old)) self.old }

        ensures settled { D.tells ≡ true
            → IsOnDisk (D.seen disk.new) (D.images disk.new (D.moment disk.new)) self.new }
        // From the state s before the group to the state shown.
        ensures commits { D.tells ≡ true → self.old.broken ≡ None → (s : State) → self.old.before ≡ Some s
            → Commits D.seen D.moment D.images self.old.place self.new.place s self.old.state
            disk.old disk.new result }
        ensures stop { D.tells ≡ true → D.stops ≡ true → D.stopped disk.old ≡ false → self.old.broken ≡ None
            → (s : State) → self.old.before ≡ Some s
            → CommitsOrStops D.seen D.moment D.stopped D.leaves self.old.place.base s self.old.state
            disk.old disk.new result }
        ensures none { self.old.before ≡ None → disk.new ≡ disk.old }
        ensures base { OnOk result (self.new.place.base ≡ self.old.place.base) }
        ensures shown { OnOk result (self.new.state ≡ self.old.state) }
        ensures back { OnErr result (self.new.state ≡ held self.old) }
        ensures closed { self.new.before ≡ None }
        ensures limits { self.new.limits ≡ self.old.limits }
        ensures broken { IsBroken self.old.broken self.new.broken result }
        ensures untouched { IsSome self.old.broken
            → (self.new.place ≡ self.old.place) × (disk.new ≡ disk.old) }
        ensures came { D.came disk.old disk.new }
        ensures cause { HasDiskCause D.faults D.inner_faults D.stopped disk.old disk.new result }
        ensures memory { IsErrOf result StoreFault.Memory → D.may_run_out ≡ true }
    {
        if self.undo.is_empty() {
            return self.kept.check();
        }
        let answer = self.kept.append(disk, g.ready.as_slice());
        if answer.is_ok() {
            self.undo.clear();
        } else {
            undo_all(&mut self.state, &mut self.undo);
        }
        answer
    }
}
