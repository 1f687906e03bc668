//! Arrivals are worked out one after the other, and what they made is put on the disk by one commit.
ghost use Rattle.std.specs.Prelude.{◌≡◌, [], length, true, false, None, Some, IfOk, OnOk, OnErr, IsErrOf};
ghost use Rattle.room_store.specs.Stored.{held, IsOpen, IsOnDisk};
ghost use Rattle.room_arrivals.specs.Serving.{Serves, Keeps};
ghost use Rattle.room_arrivals.specs.Seats.{AreSeated};
ghost use Rattle.room_server.specs.Commit.{Puts, Stops, HoldsNow};
ghost use Rattle.room_server.specs.Faults.{IsBroken, HasDiskCause};
ghost use Rattle.room_server.specs.Turn.{takes, Turns};

use crate::arrivals::Came;
use crate::fault::{ServerFault, as_server};
use room_arrivals::{Draft, Setting, arrive, gone, opened};
use room_disk::{Disk, Stop};
use room_json::NoMemory;
use room_links::{Links, Outs};
use room_store::{Cause, Group, Store};
use room_tree::Tree;
use std::alloc::Global;

/// What is worked on, before the first arrival: a copy of the connections.
pub fn begin(alloc: Global, links: &Links) -> Result<Draft, NoMemory>
    ensures links { IfOk result (λ d. d.links ≡ links.now) }
    ensures outs { IfOk result (λ d. d.outs ≡ []) }
    ensures group { IfOk result (λ d. d.group.entries ≡ []) }
{
    let links = links.copy(alloc)?;
    Ok(Draft {
        links,
        outs: Outs::new(alloc),
        group: Group::new(alloc),
    })
}

/// One arrival.
fn take<T: Tree>(
    alloc: Global,
    store: &mut Store<T>,
    setting: &Setting,
    draft: &mut Draft,
    came: &Came,
) -> Result<(), NoMemory>
    requires group { IsOpen store.old draft.old.group }
    requires seated { AreSeated (length store.old.state.sessions) draft.old.links }

    ensures serves { OnOk result (Serves setting.now store.old store.new draft.old draft.new
        (λ v. takes v came.now)) }
    ensures group { IsOpen store.new draft.new.group }
    ensures seated { OnOk result (AreSeated (length store.new.state.sessions) draft.new.links) }
    ensures keeps { Keeps store.old store.new }
{
    match came {
        Came::Opened(conn, key) => opened(&mut draft.links, *conn, *key),
        Came::Frame(conn, text) => arrive(alloc, store, setting, draft, *conn, text),
        Came::Gone(conn) => gone(alloc, &mut draft.links, &mut draft.outs, *conn),
    }
}

/// All arrivals of a turn, in their order.
pub fn take_all<T: Tree>(
    alloc: Global,
    store: &mut Store<T>,
    setting: &Setting,
    draft: &mut Draft,
    arrivals: &[Came],
) -> Result<(), NoMemory>
    requires group { IsOpen store.old draft.old.group }
    requires seated { AreSeated (length store.old.state.sessions) draft.old.links }

    ensures turns { OnOk result (Turns setting.now store.old store.new draft.old draft.new arrivals.now) }
    ensures group { IsOpen store.new draft.new.group }
    ensures seated { OnOk result (AreSeated (length store.new.state.sessions) draft.new.links) }
    ensures keeps { Keeps store.old store.new }
{
    for came in arrivals {
        take(alloc, store, setting, draft, came)?;
    }
    Ok(())
}

/// The entries are put on the disk, and then what was made is the server's. Where that fails, the store goes back to the
/// state before them, and the connections stay. Takes no memory.
#[tactic(auto, using(crate::proofs::Groups::none_open, crate::proofs::Breaking::memory_breaks))]
pub fn finish<D: Disk, T: Tree>(
    store: &mut Store<T>,
    links: &mut Links,
    disk: &mut D,
    draft: Draft,
) -> Result<Outs, ServerFault>
    requires group { IsOpen store.old draft.group }
    requires settled { D.tells ≡ true
        → IsOnDisk (D.seen disk.old) (D.images disk.old (D.moment disk.old)) store.old }

    ensures outs { IfOk result (λ os. os ≡ draft.outs) }
    ensures shown { OnOk result (store.new.state ≡ store.old.state) }
    ensures links { OnOk result (links.new ≡ draft.links) }
    ensures back { OnErr result (store.new.state ≡ held store.old) }
    ensures links_stay { OnErr result (links.new ≡ links.old) }
    ensures closed { store.new.before ≡ None }
    ensures limits { store.new.limits ≡ store.old.limits }
    ensures settled { D.tells ≡ true
        → IsOnDisk (D.seen disk.new) (D.images disk.new (D.moment disk.new)) store.new }
    // The entries are put on the disk, from the state before them to the state shown.
    ensures puts { D.tells ≡ true → store.old.broken ≡ None
        → Puts D.seen D.moment D.images store.old.place store.new.place draft.group.entries
        (held store.old) store.old.state disk.old disk.new result }
    ensures stop { D.tells ≡ true → D.stops ≡ true → D.stopped disk.old ≡ false → store.old.broken ≡ None
        → Stops D.seen D.moment D.stopped D.leaves store.old.place.base draft.group.entries
        (held store.old) store.old.state disk.old disk.new result }
    ensures held { D.tells ≡ true
        → OnOk result (HoldsNow D.moment D.images store.new.place.base store.new.state disk.new) }
    ensures none { draft.group.entries ≡ [] → disk.new ≡ disk.old }
    ensures base { OnOk result (store.new.place.base ≡ store.old.place.base) }
    ensures broken { IsBroken store.old.broken store.new.broken result }
    ensures came { D.came disk.old disk.new }
    ensures cause { HasDiskCause D.faults D.inner_faults D.stopped disk.old disk.new result }
    ensures memory { IsErrOf result ServerFault.Memory → D.may_run_out ≡ true }
    ensures breaks { IsErrOf result ServerFault.Memory → store.new.broken ≡ Some Cause.Memory }
{
    let Draft {
        links: next,
        outs,
        group,
    } = draft;
    match store.commit(disk, group) {
        Ok(()) => {
            *links = next;
            Ok(outs)
        },
        Err(fault) => Err(as_server(fault)),
    }
}
