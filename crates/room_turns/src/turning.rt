//! A turn: it is committed, then what goes out is tried, and what was lost is gone; a compaction, where one is due.
ghost use Rattle.std.specs.Prelude.{◌≡◌, ◌≤◌, ◌<◌, ◌+◌, ◌++◌, ◌⊎◌, List, ℕ, [], true, map, length, if◌then◌else◌};
ghost use Rattle.std.specs.Prelude.{IfOk, IfErr, OnOk, OnErr};
ghost use Rattle.room_disk.specs.Model.{WithinWhole};
ghost use Rattle.room_links.specs.Outs.{written};
ghost use Rattle.room_log.specs.Log.{State, Entry};
ghost use Rattle.room_model.specs.Server.{Outbound};
ghost use Rattle.room_replay.specs.Files.{StandsFor};
ghost use Rattle.room_server.specs.Faults.{HasDiskCause as HasServerCause};
ghost use Rattle.room_server.specs.Hosted.{server_in};
ghost use Rattle.room_serving.specs.Serving.{Ending, goners};
ghost use Rattle.room_serving.specs.Turns.{turned, has_round, is_round};
ghost use Rattle.room_turns.specs.Faults.{IsOfTurn};
ghost use Rattle.room_turns.specs.Gathering.{events_of};
ghost use Rattle.room_turns.specs.Holding.{IsCompacted, IsLast, after_turns};
ghost use Rattle.room_turns.specs.Parts.{trying, Stops};
ghost use Rattle.room_turns.specs.Turning.{IsServing, CommitsTurn, HasDiskCause, Settles, Turns, compact_calls};

use crate::fault::{ServeFault, of_server};
use crate::trying::try_all;
use room_disk::Disk;
use room_hub::Hub;
use room_json::NoMemory;
use room_server::{Arrivals, Came, Outs, Server, ServerFault};
use room_tree::Tree;
use std::alloc::Global;

/// Arrivals are one turn of the server, committed before anything goes out. Nothing is done where there are none.
fn take<T: Tree, D: Disk>(
    alloc: Global,
    server: &mut Server<T>,
    disk: &mut D,
    came: &Arrivals,
) -> Result<Outs, ServeFault>
    requires serving { D.tells ≡ true
        → IsServing (D.seen disk.old) (D.images disk.old (D.moment disk.old)) server.old }

    ensures outs { IfOk result (λ os. os ≡ map written (turned (server_in server.old) (events_of came.now)).outs) }
    ensures server { OnOk result (server_in server.new ≡ (turned (server_in server.old) (events_of came.now)).server) }
    ensures serving { D.tells ≡ true
        → OnOk result (IsServing (D.seen disk.new) (D.images disk.new (D.moment disk.new)) server.new) }
    ensures commits { D.tells ≡ true → (s : State) (groups : List (List Entry))
        → after_turns s groups ≡ server.old.store.state
        → CommitsTurn D.moment D.images s groups (turned (server_in server.old) (events_of came.now)).entries
        disk.old disk.new result }
    ensures compacted { D.tells ≡ true → (n : ℕ) → IsCompacted (D.seen disk.old) n
        → OnOk result (IsCompacted (D.seen disk.new) n) }
    ensures still { (turned (server_in server.old) (events_of came.now)).entries ≡ [] → disk.new ≡ disk.old }
    ensures of_turn { IfErr result IsOfTurn }
    ensures came { D.came disk.old disk.new }
    ensures cause { HasDiskCause D.faults D.inner_faults D.stopped disk.old disk.new result }
{
    if came.len() == 0 {
        return Ok(Outs::new(alloc));
    }
    match server.turn(alloc, disk, came) {
        Ok(outs) => Ok(outs),
        Err(fault) => Err(of_server(fault)),
    }
}

/// These connections are gone.
fn gone_all(alloc: Global, conns: &[u64]) -> Result<Arrivals, NoMemory>
    ensures { IfOk result (λ came. events_of came ≡ goners conns.now) }
{
    let mut came = Arrivals::new(alloc);
    for conn in conns {
        came.push(Came::Gone(*conn))?;
    }
    Ok(came)
}

/// Connections with a loss are gone, in a turn of their own; what goes out then. The disk isn't touched.
fn lose<T: Tree, D: Disk>(
    alloc: Global,
    server: &mut Server<T>,
    disk: &mut D,
    lost: &[u64],
) -> Result<Outs, ServeFault>
    requires serving { D.tells ≡ true
        → IsServing (D.seen disk.old) (D.images disk.old (D.moment disk.old)) server.old }

    ensures outs { IfOk result (λ os. os ≡ map written (turned (server_in server.old) (goners lost.now)).outs) }
    ensures server { OnOk result (server_in server.new ≡ (turned (server_in server.old) (goners lost.now)).server) }
    ensures serving { D.tells ≡ true
        → OnOk result (IsServing (D.seen disk.new) (D.images disk.new (D.moment disk.new)) server.new) }
    ensures still { disk.new ≡ disk.old }
    ensures of_turn { IfErr result IsOfTurn }
    ensures cause { HasDiskCause D.faults D.inner_faults D.stopped disk.old disk.new result }
{
    let came = gone_all(alloc, lost)?;
    take(alloc, server, disk, &came)
}

/// All that goes out is tried in order. Then each connection with a loss is gone, in rising order, in a turn of their own,
/// and what goes out then is tried in the same way, until nothing is lost. The disk isn't touched.
fn settle<T: Tree, D: Disk, H: Hub>(
    alloc: Global,
    server: &mut Server<T>,
    disk: &mut D,
    hub: &mut H,
    outs: Outs,
) -> Result<(), ServeFault>
    requires serving { D.tells ≡ true
        → IsServing (D.seen disk.old) (D.images disk.old (D.moment disk.old)) server.old }

    ensures settles { H.tells ≡ true → (left : ℕ) (ending : Ending) (todo : List (ℕ × Outbound))
        (groups : List (List Entry)) (owed : ℕ) → map written todo ≡ outs → OnOk result
        (Settles (server_in server.old) left ending todo groups owed (H.happened hub.old) (H.happened hub.new)
        (server_in server.new)) }
    ensures stops { H.tells ≡ true → (left : ℕ) (ending : Ending) (todo : List (ℕ × Outbound))
        (groups : List (List Entry)) (owed : ℕ) → map written todo ≡ outs → OnErr result
        (Stops (trying (server_in server.old) left ending todo [] groups owed) (H.happened hub.old)
        (H.happened hub.new) result) }
    ensures serving { D.tells ≡ true
        → OnOk result (IsServing (D.seen disk.new) (D.images disk.new (D.moment disk.new)) server.new) }
    ensures state { OnOk result ((server_in server.new).state ≡ (server_in server.old).state) }
    ensures still { disk.new ≡ disk.old }
    ensures asked { H.asked hub.new ≡ H.asked hub.old }
    ensures later { H.faults hub.old ≤ H.faults hub.new }
    ensures of_turn { IfErr result IsOfTurn }
    ensures cause { HasDiskCause D.faults D.inner_faults D.stopped disk.old disk.new result }
{
    let mut outs = outs;
    while outs.len() > 0 {
        let lost = try_all(alloc, hub, outs.as_slice())?;
        outs = lose(alloc, server, disk, lost.as_slice())?;
    }
    Ok(())
}

/// Compacts the room where a number behind `before` is a multiple of 1,000.
fn compact_if_due<T: Tree, D: Disk>(
    alloc: Global,
    server: &mut Server<T>,
    disk: &mut D,
    before: u64,
) -> Result<(), ServeFault>
    requires serving { D.tells ≡ true
        → IsServing (D.seen disk.old) (D.images disk.old (D.moment disk.old)) server.old }

    ensures server { server_in server.new ≡ server_in server.old }
    ensures serving { D.tells ≡ true
        → OnOk result (IsServing (D.seen disk.new) (D.images disk.new (D.moment disk.new)) server.new) }
    ensures moments { D.tells ≡ true
        → WithinWhole D.moment D.images disk.old disk.new (StandsFor 0 server.old.store.state) }
    ensures counted { D.tells ≡ true → (k : ℕ) → server.old.store.state.count ≡ before + k
        → OnOk result (D.moment disk.new ≡ D.moment disk.old + compact_calls before k) }
    ensures bound { D.tells ≡ true → (k : ℕ) → server.old.store.state.count ≡ before + k
        → D.moment disk.new ≤ D.moment disk.old + compact_calls before k }
    ensures compacted { D.tells ≡ true → (k n : ℕ) → server.old.store.state.count ≡ before + k → n ≤ before + k
        → IsCompacted (D.seen disk.old) n ⊎ ((before < n) × (is_round n ≡ true))
        → OnOk result (IsCompacted (D.seen disk.new) n ⊎ IsLast (D.seen disk.old)) }
    ensures of_turn { IfErr result IsOfTurn }
    ensures came { D.came disk.old disk.new }
    ensures cause { HasDiskCause D.faults D.inner_faults D.stopped disk.old disk.new result }
{
    if before / 1000 == server.store().count() / 1000 {
        return Ok(());
    }
    match server.compact(alloc, disk) {
        Ok(()) => Ok(()),
        Err(fault) => Err(of_server(fault)),
    }
}

/// A turn of these arrivals: it is committed, what goes out is tried, what was lost is gone, and where one is due the room is
/// compacted.
pub(crate) fn turn<T: Tree, D: Disk, H: Hub>(
    alloc: Global,
    server: &mut Server<T>,
    disk: &mut D,
    hub: &mut H,
    came: &Arrivals,
) -> Result<(), ServeFault>
    requires serving { D.tells ≡ true
        → IsServing (D.seen disk.old) (D.images disk.old (D.moment disk.old)) server.old }

    ensures turns { D.tells ≡ true → H.tells ≡ true → (s : State) (left : ℕ) (ending : Ending)
        (groups : List (List Entry)) (owed : ℕ) → after_turns s groups ≡ server.old.store.state → owed ≤ length groups
        → Turns D.seen D.moment D.images s (turned (server_in server.old) (events_of came.now)) left ending groups owed
        (H.happened hub.old) (H.happened hub.new) (server_in server.old) (server_in server.new) disk.old disk.new result }
    ensures serving { D.tells ≡ true
        → OnOk result (IsServing (D.seen disk.new) (D.images disk.new (D.moment disk.new)) server.new) }
    ensures asked { H.asked hub.new ≡ H.asked hub.old }
    ensures later { H.faults hub.old ≤ H.faults hub.new }
    ensures of_turn { IfErr result IsOfTurn }
    ensures came { D.came disk.old disk.new }
    ensures cause { HasDiskCause D.faults D.inner_faults D.stopped disk.old disk.new result }
{
    let before = server.store().count();
    let outs = take(alloc, server, disk, came)?;
    settle(alloc, server, disk, hub, outs)?;
    compact_if_due(alloc, server, disk, before)
}
