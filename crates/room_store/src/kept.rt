//! A room on its two files: a group is put behind the last, and the files are made anew.
ghost use Rattle.std.specs.Prelude.{◌≡◌, ◌≤◌, ◌<◌, ◌^◌, ◌+◌, ℕ, length};
ghost use Rattle.std.specs.Prelude.{◌⊎◌, IfOk, OnOk, IsErr, IsErrOf, IsSome, true, false, Some, None};
ghost use Rattle.room_disk.specs.Model.{Only};
ghost use Rattle.room_log.specs.Log.{State};
ghost use Rattle.room_log.specs.Follows.{IsValidState};
ghost use Rattle.room_bytes.specs.declared.entries.Format.TheVariants.{Two};
ghost use Rattle.room_snapshot.specs.Bounds.{state_of};
ghost use Rattle.room_journal.specs.Rest.{IsReady, body_of, IsAtRest};
ghost use Rattle.room_journal.specs.Appends.{IsClean};
ghost use Rattle.room_journal.specs.Causes.{HasCauses};
ghost use Rattle.room_replay.specs.Files.{taken};
ghost use Rattle.room_store.specs.Consistent.{Settled, IsKept, IsReadyState};
ghost use Rattle.room_store.specs.Calls.{Commits, CommitsOrStops, Compacts};
ghost use Rattle.room_store.specs.Faults.{IsBroken, IsBrokenOrFull, HasDiskCause};

use crate::fault::{Cause, StoreFault, cause_in, told};
use room_disk::{Disk, Stop};
use room_journal::{Journal, JournalFault};
use room_json::{Bytes, NoMemory};
use room_log::valid_after;
use room_snapshot::{Sessions, Snapshot, write_snapshot};
use room_tree::Tree;
use std::alloc::Global;

/// Where the files go on, and what broke them.
#[derive(Drop)]
pub struct Kept {
    pub journal: Journal,
    pub broken: Option<Cause>,
    ghost small: { broken ≡ None → journal.end < 2 ^ 62 },
    ghost based: { broken ≡ None → journal.base + 1 < 2 ^ 32 },
}

/// The bytes of a file of the next generation that holds this state.
pub fn ready_state<T: Tree>(
    alloc: Global,
    journal: &Journal,
    count: u64,
    sessions: &Sessions,
    tree: &T,
) -> Result<Bytes, NoMemory>
    ensures ready { IfOk result (λ v. IsReadyState journal.now.generation
        (state_of count sessions.now (T.nodes tree.now)) v) }
    ensures small { IfOk result (λ v. length v < 2 ^ 62) }
{
    let snapshot = write_snapshot(alloc, count, sessions, tree)?;
    let ready = journal.ready_file(alloc, snapshot.as_slice())?;
    if ready.len() >= 1 << 61 {
        return Err(NoMemory);
    }
    Ok(ready)
}

/// Makes the file that doesn't count anew.
pub fn renew<D: Disk>(journal: &mut Journal, disk: &mut D, ready: &[u8]) -> Result<(), JournalFault>
    requires base { journal.old.base + 1 < 2 ^ 32 }
    requires ready { length ready.now < 2 ^ 62 }

    ensures compacts { D.tells ≡ true → (s : State)
        → IsKept (D.seen disk.old) (D.images disk.old (D.moment disk.old)) journal.old s
        → IsReadyState journal.old.generation s ready.now
        → Compacts D.seen D.moment D.images journal.old journal.new s disk.old disk.new result }
    ensures base { journal.new.base ≡ journal.old.base }
    ensures small { journal.old.end < 2 ^ 62 → OnOk result (journal.new.end < 2 ^ 62) }
    ensures bound { D.tells ≡ true → D.moment disk.new ≤ D.moment disk.old + 6 }
    ensures stop_fails { D.stopped disk.new ≡ true → IsErr result }
    ensures clean { D.tells ≡ true → D.stops ≡ true → D.stopped disk.old ≡ false
        → IsClean D.seen D.leaves disk.old → OnOk result (IsClean D.seen D.leaves disk.new) }
    ensures came { D.came disk.old disk.new }
    ensures cause { HasCauses D.may_run_out D.faults D.inner_faults D.stopped disk.old disk.new result }
{
    valid_after();
    journal.renew(disk, ready)
}

impl Kept {
    /// Whether the files can still be written.
    pub fn check(&self) -> Result<(), StoreFault>
        ensures broken { IsBroken self.now.broken self.now.broken result }
        ensures memory { IsErrOf result StoreFault.Memory → ⊥ }
        ensures disk { IsErrOf result StoreFault.Disk → ⊥ }
    {
        match self.broken {
            Some(cause) => Err(StoreFault::Broken(cause)),
            None => Ok(()),
        }
    }

    /// Puts a group, ready to be written, behind the last one, by four calls. Takes no memory.
    pub fn append<D: Disk>(&mut self, disk: &mut D, ready: &[u8]) -> Result<(), StoreFault>
        requires ready { IsReady ready.now }
        requires settled { D.tells ≡ true → self.old.broken ≡ None → (s : State)
            × Settled Two (D.seen disk.old) (D.images disk.old (D.moment disk.old)) self.old.journal s }

        ensures commits { D.tells ≡ true → self.old.broken ≡ None → (s t : State)
            → Settled Two (D.seen disk.old) (D.images disk.old (D.moment disk.old)) self.old.journal s
            → taken Two s (body_of ready.now) ≡ Some t → IsValidState t
            → Commits D.seen D.moment D.images self.old.journal self.new.journal s t disk.old disk.new result }
        ensures stop { D.tells ≡ true → D.stops ≡ true → D.stopped disk.old ≡ false → self.old.broken ≡ None
            → (s t : State)
            → Settled Two (D.seen disk.old) (D.images disk.old (D.moment disk.old)) self.old.journal s
            → taken Two s (body_of ready.now) ≡ Some t
            → CommitsOrStops D.seen D.moment D.stopped D.leaves self.old.journal.base s t disk.old disk.new result }
        ensures base { OnOk result (self.new.journal.base ≡ self.old.journal.base) }
        ensures untouched { IsSome self.old.broken
            → (self.new.journal ≡ self.old.journal) × (disk.new ≡ disk.old) }
        ensures broken { IsBroken self.old.broken self.new.broken result }
        ensures came { D.came disk.old disk.new }
        ensures cause { HasDiskCause D.faults D.inner_faults D.stopped disk.old disk.new result }
        ensures memory { IsErrOf result StoreFault.Memory → D.may_run_out ≡ true }
    {
        if let Some(cause) = self.broken {
            return Err(StoreFault::Broken(cause));
        }
        let answer = self.journal.append(disk, ready);
        self.broken = cause_in(&answer);
        told(answer)
    }

    /// Makes the files anew with this state, by six calls: a file of the next generation, or nothing at the last one.
    pub fn compact<D: Disk, T: Tree>(
        &mut self,
        alloc: Global,
        disk: &mut D,
        state: &Snapshot<T>,
    ) -> Result<(), StoreFault>
        requires { D.tells ≡ true → self.old.broken ≡ None
            → Settled Two (D.seen disk.old) (D.images disk.old (D.moment disk.old)) self.old.journal
            (state_of state.now.count state.now.sessions (T.nodes state.now.tree)) }

        ensures compacts { D.tells ≡ true → self.old.broken ≡ None
            → Compacts D.seen D.moment D.images self.old.journal self.new.journal
            (state_of state.now.count state.now.sessions (T.nodes state.now.tree)) disk.old disk.new result }
        // Also where it was out of memory before it wrote anything.
        ensures settled { D.tells ≡ true → self.old.broken ≡ None → self.new.broken ≡ None
            → Settled Two (D.seen disk.new) (D.images disk.new (D.moment disk.new)) self.new.journal
            (state_of state.now.count state.now.sessions (T.nodes state.now.tree)) }
        ensures base { self.new.journal.base ≡ self.old.journal.base }
        ensures bound { D.tells ≡ true → D.moment disk.new ≤ D.moment disk.old + 6 }
        ensures broken { IsBrokenOrFull self.old.broken self.new.broken result }
        ensures untouched { IsSome self.old.broken
            → (self.new.journal ≡ self.old.journal) × (disk.new ≡ disk.old) }
        // Out of memory by itself: nothing has changed.
        ensures memory { IsErrOf result StoreFault.Memory → self.new.broken ≡ None
            → (self.new.journal ≡ self.old.journal) × (disk.new ≡ disk.old) }
        ensures short { IsErrOf result StoreFault.Memory → (disk.new ≡ disk.old) ⊎ (D.may_run_out ≡ true) }
        ensures stop_fails { D.stopped disk.old ≡ false → D.stopped disk.new ≡ true → IsErr result }
        ensures clean { D.tells ≡ true → D.stops ≡ true → D.stopped disk.old ≡ false
            → IsClean D.seen D.leaves disk.old → OnOk result (IsClean D.seen D.leaves disk.new) }
        ensures came { D.came disk.old disk.new }
        ensures cause { HasDiskCause D.faults D.inner_faults D.stopped disk.old disk.new result }
    {
        if let Some(cause) = self.broken {
            return Err(StoreFault::Broken(cause));
        }
        let ready = ready_state(
            alloc,
            &self.journal,
            state.count,
            &state.sessions,
            &state.tree,
        )?;
        let answer = renew(&mut self.journal, disk, ready.as_slice());
        self.broken = cause_in(&answer);
        told(answer)
    }
}
