//! A store begins: with what its files stand for, which are written anew where they are of the older format, or new.
ghost use Rattle.std.specs.Prelude.{◌≡◌, ◌⊎◌, ◌≤◌, ◌<◌, ◌^◌, ◌+◌, ℕ, length, true, false, None};
ghost use Rattle.std.specs.Prelude.{IfOk, IfErr, OnOk, IsErr};
ghost use Rattle.room_disk.specs.Model.{Only, Within, WithinWhole};
ghost use Rattle.room_nodes.specs.Shape.{empty_tree};
ghost use Rattle.room_log.specs.Log.{State};
ghost use Rattle.room_log.specs.Follows.{IsValidState};
ghost use Rattle.room_bytes.specs.declared.entries.Format.TheVariants.{Two};
ghost use Rattle.room_snapshot.specs.Bounds.{state_of};
ghost use Rattle.room_journal.specs.Appends.{IsClean};
ghost use Rattle.room_journal.specs.Files.{reading};
ghost use Rattle.room_journal.specs.Found.{IsFound, HasShape};
ghost use Rattle.room_replay.specs.Files.{Stands, StandsFor, files};
ghost use Rattle.room_store.specs.Calls.{Compacts};
ghost use Rattle.room_store.specs.Consistent.{BeforeOr, Settled, IsKept, Since, Elsewhere, IsStill};
ghost use Rattle.room_store.specs.Faults.{IsFault, HasDiskCause};

use crate::fault::{StoreFault, as_store, told};
use crate::kept::{Kept, ready_state, renew};
use room_bytes::Format;
use room_disk::{Disk, Stop};
use room_journal::{Found, Journal};
use room_json::Seq;
use room_log::valid_after;
use room_replay::open;
use room_snapshot::Snapshot;
use room_tree::Tree;
use std::alloc::Global;

/// A state, and the files that hold it.
#[derive(Drop)]
pub struct Begun<T: Tree> {
    pub kept: Kept,
    pub state: Snapshot<T>,
}

/// Makes a file of the next generation for this state.
fn make_file<D: Disk, T: Tree>(
    alloc: Global,
    disk: &mut D,
    journal: &mut Journal,
    state: &Snapshot<T>,
) -> Result<(), StoreFault>
    requires { journal.old.base + 1 < 2 ^ 32 }

    ensures compacts { D.tells ≡ true
        → IsKept (D.seen disk.old) (D.images disk.old (D.moment disk.old)) journal.old
        (state_of state.now.count state.now.sessions (T.nodes state.now.tree))
        → Compacts D.seen D.moment D.images journal.old journal.new
        (state_of state.now.count state.now.sessions (T.nodes state.now.tree)) disk.old disk.new result }
    ensures base { journal.new.base ≡ journal.old.base }
    ensures small { journal.old.end < 2 ^ 62 → OnOk result (journal.new.end < 2 ^ 62) }
    ensures bound { D.tells ≡ true → D.moment disk.new ≤ D.moment disk.old + 6 }
    ensures fault { IfErr result (λ e. (e ≡ StoreFault.Disk) ⊎ (e ≡ StoreFault.Memory)) }
    ensures stop_fails { D.stopped disk.old ≡ false → D.stopped disk.new ≡ true → IsErr result }
    ensures clean { D.tells ≡ true → D.stops ≡ true → D.stopped disk.old ≡ false
        → IsClean D.seen D.leaves disk.old → OnOk result (IsClean D.seen D.leaves disk.new) }
    ensures came { D.came disk.old disk.new }
    ensures cause { HasDiskCause D.faults D.inner_faults D.stopped disk.old disk.new result }
{
    let ready = ready_state(alloc, &*journal, state.count, &state.sessions, &state.tree)?;
    told(renew(journal, disk, ready.as_slice()))
}

/// A store that begins with this state, in a file of the next generation.
fn begin<D: Disk, T: Tree>(
    alloc: Global,
    disk: &mut D,
    journal: Journal,
    state: Snapshot<T>,
) -> Result<Begun<T>, StoreFault>
    requires base { journal.base + 1 < 2 ^ 32 }
    requires small { journal.end < 2 ^ 62 }

    ensures state { IfOk result (λ s. state_of s.state.count s.state.sessions (T.nodes s.state.tree)
        ≡ state_of state.count state.sessions (T.nodes state.tree)) }
    ensures base { IfOk result (λ s. s.kept.journal.base ≡ journal.base) }
    ensures whole { IfOk result (λ s. s.kept.broken ≡ None) }
    ensures valid { IsValidState (state_of state.count state.sessions (T.nodes state.tree))
        → IfOk result (λ s. IsValidState (state_of s.state.count s.state.sessions (T.nodes s.state.tree))) }
    ensures settled { D.tells ≡ true
        → IsKept (D.seen disk.old) (D.images disk.old (D.moment disk.old)) journal
        (state_of state.count state.sessions (T.nodes state.tree))
        → IfOk result (λ s. Settled Two (D.seen disk.new) (D.images disk.new (D.moment disk.new)) s.kept.journal
        (state_of state.count state.sessions (T.nodes state.tree))) }
    ensures any_moment { D.tells ≡ true
        → IsKept (D.seen disk.old) (D.images disk.old (D.moment disk.old)) journal
        (state_of state.count state.sessions (T.nodes state.tree))
        → WithinWhole D.moment D.images disk.old disk.new
        (StandsFor journal.base (state_of state.count state.sessions (T.nodes state.tree))) }
    ensures others { D.tells ≡ true
        → IsKept (D.seen disk.old) (D.images disk.old (D.moment disk.old)) journal
        (state_of state.count state.sessions (T.nodes state.tree))
        → (f : ℕ) → (f ≡ journal.base → ⊥) → (f ≡ journal.base + 1 → ⊥) → D.seen disk.new f ≡ D.seen disk.old f }
    ensures elsewhere { D.tells ≡ true
        → IsKept (D.seen disk.old) (D.images disk.old (D.moment disk.old)) journal
        (state_of state.count state.sessions (T.nodes state.tree))
        → Within D.moment D.images disk.old disk.new
        (Elsewhere journal.base (D.images disk.old (D.moment disk.old))) }
    ensures bound { D.tells ≡ true → D.moment disk.new ≤ D.moment disk.old + 6 }
    ensures fault { IfErr result (λ e. (e ≡ StoreFault.Disk) ⊎ (e ≡ StoreFault.Memory)) }
    ensures stop_fails { D.stopped disk.old ≡ false → D.stopped disk.new ≡ true → IsErr result }
    ensures clean { D.tells ≡ true → D.stops ≡ true → D.stopped disk.old ≡ false
        → IsClean D.seen D.leaves disk.old → OnOk result (IsClean D.seen D.leaves disk.new) }
    ensures came { D.came disk.old disk.new }
    ensures cause { HasDiskCause D.faults D.inner_faults D.stopped disk.old disk.new result }
{
    let mut journal = journal;
    match make_file(alloc, disk, &mut journal, &state) {
        Ok(()) => Ok(Begun {
            kept: Kept {
                journal,
                broken: None,
            },
            state,
        }),
        Err(fault) => Err(fault),
    }
}

/// The store of files that were read.
fn resume<D: Disk, T: Tree>(
    alloc: Global,
    disk: &mut D,
    base: u32,
    found: Found,
    empty: T,
) -> Result<Begun<T>, StoreFault>
    requires base { base + 1 < 2 ^ 32 }
    requires shape { HasShape base found }
    requires empty { T.nodes empty ≡ empty_tree }
    requires found { D.tells ≡ true
        → IsFound base (reading base (D.seen disk.old base) (D.seen disk.old (base + 1))) found }
    requires first { D.tells ≡ true → Only (D.seen disk.old base) (D.images disk.old (D.moment disk.old) base) }
    requires second { D.tells ≡ true
        → Only (D.seen disk.old (base + 1)) (D.images disk.old (D.moment disk.old) (base + 1)) }

    ensures base { IfOk result (λ s. s.kept.journal.base ≡ base) }
    ensures whole { IfOk result (λ s. s.kept.broken ≡ None) }
    ensures valid { IfOk result (λ s. IsValidState (state_of s.state.count s.state.sessions (T.nodes s.state.tree))) }
    ensures state { D.tells ≡ true → IfOk result (λ s.
        Stands (state_of s.state.count s.state.sessions (T.nodes s.state.tree))
        (files base (D.seen disk.old base) (D.seen disk.old (base + 1)))) }
    ensures settled { D.tells ≡ true → IfOk result (λ s.
        Settled Two (D.seen disk.new) (D.images disk.new (D.moment disk.new)) s.kept.journal
        (state_of s.state.count s.state.sessions (T.nodes s.state.tree))) }
    ensures any_moment { D.tells ≡ true → (s : State)
        → Stands s (files base (D.seen disk.old base) (D.seen disk.old (base + 1)))
        → WithinWhole D.moment D.images disk.old disk.new (StandsFor base s) }
    ensures others { D.tells ≡ true → (f : ℕ) → (f ≡ base → ⊥) → (f ≡ base + 1 → ⊥)
        → D.seen disk.new f ≡ D.seen disk.old f }
    ensures elsewhere { D.tells ≡ true → Within D.moment D.images disk.old disk.new
        (Elsewhere base (D.images disk.old (D.moment disk.old))) }
    ensures bound { D.tells ≡ true → D.moment disk.new ≤ D.moment disk.old + 6 }
    // Where no file is made.
    ensures still { D.tells ≡ true → IsStill (reading base (D.seen disk.old base) (D.seen disk.old (base + 1)))
        → disk.new ≡ disk.old }
    ensures fault { D.tells ≡ true → IfErr result (λ e. (e ≡ StoreFault.Disk)
        ⊎ IsFault (files base (D.seen disk.old base) (D.seen disk.old (base + 1))) e) }
    ensures stop_fails { D.stopped disk.old ≡ false → D.stopped disk.new ≡ true → IsErr result }
    ensures clean { D.tells ≡ true → D.stops ≡ true → D.stopped disk.old ≡ false
        → IsClean D.seen D.leaves disk.old → OnOk result (IsClean D.seen D.leaves disk.new) }
    ensures came { D.came disk.old disk.new }
    ensures cause { HasDiskCause D.faults D.inner_faults D.stopped disk.old disk.new result }
{
    valid_after();
    let Found {
        journal,
        file,
        format,
        snapshot,
        bodies,
        broken,
    } = found;
    let Some(snapshot) = snapshot else {
        let state = Snapshot {
            count: 0,
            sessions: Seq::new(alloc),
            tree: empty,
        };
        return begin(alloc, disk, journal, state);
    };
    let state = match open(
        alloc,
        format,
        file,
        empty,
        snapshot.as_slice(),
        bodies.as_slice(),
        broken,
    ) {
        Ok(state) => state,
        Err(fault) => return Err(as_store(fault)),
    };
    match format {
        Format::One => begin(alloc, disk, journal, state),
        Format::Two => Ok(Begun {
            kept: Kept {
                journal,
                broken: None,
            },
            state,
        }),
    }
}

/// Puts both files as they read beyond any stop, by one call each, and recovers the state that they stand for.
pub fn start<D: Disk, T: Tree>(
    alloc: Global,
    disk: &mut D,
    base: u32,
    empty: T,
) -> Result<Begun<T>, StoreFault>
    requires base { base + 1 < 2 ^ 32 }
    requires empty { T.nodes empty ≡ empty_tree }

    ensures base { IfOk result (λ s. s.kept.journal.base ≡ base) }
    ensures whole { IfOk result (λ s. s.kept.broken ≡ None) }
    ensures valid { IfOk result (λ s.
        IsValidState (state_of s.state.count s.state.sessions (T.nodes s.state.tree))) }
    // It is the state that the files stand for as they read, and it is on the disk.
    ensures state { D.tells ≡ true → IfOk result (λ s.
        Stands (state_of s.state.count s.state.sessions (T.nodes s.state.tree))
        (files base (D.seen disk.old base) (D.seen disk.old (base + 1)))) }
    ensures settled { D.tells ≡ true → IfOk result (λ s.
        Settled Two (D.seen disk.new) (D.images disk.new (D.moment disk.new)) s.kept.journal
        (state_of s.state.count s.state.sessions (T.nodes s.state.tree))) }
    // At each moment each image is one from before the call, or stands for that state.
    ensures any_moment { D.tells ≡ true → (s : State)
        → Stands s (files base (D.seen disk.old base) (D.seen disk.old (base + 1)))
        → WithinWhole D.moment D.images disk.old disk.new
        (BeforeOr (D.images disk.old (D.moment disk.old)) (StandsFor base s)) }
    // At each moment since the two syncs each image stands for it.
    ensures since { D.tells ≡ true → IfOk result (λ s.
        Since (D.moment disk.old + 2) (D.moment disk.new) (D.images disk.new)
        (StandsFor base (state_of s.state.count s.state.sessions (T.nodes s.state.tree)))) }
    ensures others { D.tells ≡ true → (f : ℕ) → (f ≡ base → ⊥) → (f ≡ base + 1 → ⊥)
        → D.seen disk.new f ≡ D.seen disk.old f }
    ensures elsewhere { D.tells ≡ true → Within D.moment D.images disk.old disk.new
        (Elsewhere base (D.images disk.old (D.moment disk.old))) }
    ensures bound { D.tells ≡ true → D.moment disk.new ≤ D.moment disk.old + 8 }
    // Where no file is made, it makes the two syncs alone.
    ensures two { D.tells ≡ true → IsStill (reading base (D.seen disk.old base) (D.seen disk.old (base + 1)))
        → D.moment disk.new ≤ D.moment disk.old + 2 }
    ensures counted { D.tells ≡ true → IsStill (reading base (D.seen disk.old base) (D.seen disk.old (base + 1)))
        → OnOk result (D.moment disk.new ≡ D.moment disk.old + 2) }
    ensures still { D.tells ≡ true → IsStill (reading base (D.seen disk.old base) (D.seen disk.old (base + 1)))
        → Within D.moment D.images disk.old disk.new (D.images disk.old (D.moment disk.old)) }
    ensures fault { D.tells ≡ true → IfErr result (λ e. (e ≡ StoreFault.Disk)
        ⊎ IsFault (files base (D.seen disk.old base) (D.seen disk.old (base + 1))) e) }
    ensures stop_fails { D.stopped disk.old ≡ false → D.stopped disk.new ≡ true → IsErr result }
    ensures clean { D.tells ≡ true → D.stops ≡ true → D.stopped disk.old ≡ false
        → IsClean D.seen D.leaves disk.old → OnOk result (IsClean D.seen D.leaves disk.new) }
    ensures came { D.came disk.old disk.new }
    ensures cause { HasDiskCause D.faults D.inner_faults D.stopped disk.old disk.new result }
{
    match Journal::recover(alloc, disk, base) {
        Ok(found) => resume(alloc, disk, base, found, empty),
        Err(fault) => Err(as_store(fault)),
    }
}
