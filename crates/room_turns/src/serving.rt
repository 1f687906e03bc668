//! A room served over a hub.
ghost use Rattle.std.specs.Prelude.{◌≡◌, ◌≤◌, ◌⊎◌, ◌+◌, ℕ, List, [], option_map, true, false, Some, None};
ghost use Rattle.std.specs.Prelude.{IfOk, IfErr, OnOk, OnErr};
ghost use Rattle.room_access.specs.View.{access_of};
ghost use Rattle.room_host.specs.Seen.{room_files};
ghost use Rattle.room_log.specs.Log.{State};
ghost use Rattle.room_replay.specs.Files.{Stands};
ghost use Rattle.room_serving.specs.Serving.{Serving, opening};
ghost use Rattle.room_disk.specs.Model.{Keeps, WithinWhole};
ghost use Rattle.room_arrivals.specs.Serving.{limits_of};
ghost use Rattle.room_model.specs.World.{first_limits};
ghost use Rattle.room_server.specs.Hosted.{server_in, no_links};
ghost use Rattle.room_serving.specs.Serving as serving;
ghost use Rattle.room_store.specs.Consistent.{BeforeOr, IsStill, Since};
ghost use Rattle.room_journal.specs.Files.{reading};
ghost use Rattle.room_replay.specs.Files.{StandsFor};
ghost use Rattle.room_turns.specs.Faults.{HasCauses, IsOfFiles, IsOfOpening, IsWhole};
ghost use Rattle.room_turns.specs.Parts.{gathering};
ghost use Rattle.room_turns.specs.Serves.{Served, ServesRoom};
ghost use Rattle.room_turns.specs.Turning.{IsServing, HasDiskCause};

use crate::ended::Ended;
use crate::fault::{ServeFault, of_store};
use crate::gathering::{Ending, Gathered, gather};
use crate::turning::turn;
use room_access::Access;
use room_disk::Disk;
use room_hub::Hub;
use room_json::Text;
use room_server::Server;
use room_store::Limits;
use room_tree::Tree;
use std::alloc::Global;

/// Recovers the room, with no connection.
fn open<T: Tree, D: Disk>(
    alloc: Global,
    disk: &mut D,
    room: &Text,
    access: Option<Access>,
) -> Result<Server<T>, ServeFault>
    ensures serving { D.tells ≡ true
        → IfOk result (IsServing (D.seen disk.new) (D.images disk.new (D.moment disk.new))) }
    ensures server { IfOk result (λ h. server_in h ≡ record {
      state = h.store.state;
      room = room.now;
      limits = first_limits;
      access = option_map access_of access;
      links = no_links;
    }) }
    ensures state { D.tells ≡ true → IfOk result (λ h. Stands h.store.state (room_files (D.seen disk.old))) }
    ensures moments { D.tells ≡ true → (s : State) → Stands s (room_files (D.seen disk.old))
        → WithinWhole D.moment D.images disk.old disk.new
        (BeforeOr (D.images disk.old (D.moment disk.old)) (StandsFor 0 s)) }
    ensures since { D.tells ≡ true → IfOk result (λ h.
        Since (D.moment disk.old + 2) (D.moment disk.new) (D.images disk.new) (StandsFor 0 h.store.state)) }
    ensures bound { D.tells ≡ true → D.moment disk.new ≤ D.moment disk.old + 8 }
    ensures two { D.tells ≡ true → IsStill (reading 0 (D.seen disk.old 0) (D.seen disk.old 1))
        → OnOk result (D.moment disk.new ≡ D.moment disk.old + 2) }
    ensures fault { D.tells ≡ true → IfErr result (IsOfFiles (room_files (D.seen disk.old))) }
    ensures of_opening { IfErr result IsOfOpening }
    ensures came { D.came disk.old disk.new }
    ensures cause { HasDiskCause D.faults D.inner_faults D.stopped disk.old disk.new result }
{
    let limits = Limits {
        updates: 1_000_000_000_000,
        sessions: 1_000_000,
    };
    let empty = T::empty(alloc)?;
    match Server::recover(alloc, disk, 0, room, empty, limits) {
        Ok(server) => Ok(with_access(server, access)),
        Err(fault) => Err(of_store(fault)),
    }
}

/// The server, with who may do what.
fn with_access<T: Tree>(server: Server<T>, access: Option<Access>) -> Server<T>
    ensures { result ≡ record server { setting = record server.setting { access = access } } }
{
    let mut server = server;
    server.set_access(access);
    server
}

/// Gathers turns and does them, one after the other, until the hub gives its end or was asked so many times.
fn run<T: Tree, D: Disk, H: Hub>(
    alloc: Global,
    server: &mut Server<T>,
    disk: &mut D,
    hub: &mut H,
    turns: u64,
) -> Result<Ended, ServeFault>
    requires serving { D.tells ≡ true
        → IsServing (D.seen disk.old) (D.images disk.old (D.moment disk.old)) server.old }

    ensures served { D.tells ≡ true → H.tells ≡ true → Served server.old.store.state
        (gathering (server_in server.old) turns serving.GoesOn [] [] 0) (H.happened hub.old) (H.happened hub.new)
        (D.seen disk.new) (D.images disk.new) (D.moment disk.old) (D.moment disk.old) (D.moment disk.new) result }
    ensures keeps { D.tells ≡ true → H.tells ≡ true → Keeps (D.moment disk.old) (D.images disk.old) (D.images disk.new) }
    ensures asked { H.asked hub.new ≤ H.asked hub.old + turns }
    ensures whole { IfErr result IsWhole }
    ensures came { D.came disk.old disk.new }
    ensures causes { HasCauses D.faults D.inner_faults D.stopped H.tells H.happened H.asked H.faults disk.old disk.new
        hub.old hub.new result }
{
    let mut left = turns;
    while left > 0 {
        let gathered = gather(alloc, hub, left)?;
        turn(alloc, server, disk, hub, &gathered.came)?;
        match gathered.ending {
            Ending::GoesOn => left = gathered.left,
            Ending::Ended => return Ok(Ended::AtEnd),
            Ending::Missed => return Err(ServeFault::Hub),
        }
    }
    Ok(Ended::OutOfTurns)
}

/// Serves the room of the disk's first two files over a hub, until the hub gives its end, or was asked so many times.
///
/// Events are gathered until none is ready, the end comes, the hub fails, 64 have come or the last call was made. They are
/// one turn, committed by four calls of the disk before anything of it is sent. All of it is tried in order; then each
/// connection with a loss is gone, in rising order, in a turn of their own. Where an update of the turn has a number that
/// is a multiple of 1,000, the room is compacted then.
pub fn serve<T: Tree, D: Disk, H: Hub>(
    alloc: Global,
    disk: &mut D,
    hub: &mut H,
    room: &Text,
    access: Option<Access>,
    turns: u64,
) -> Result<Ended, ServeFault>
    // What was sent and closed is what serving asks for, over what the hub gave and answered; each image of the disk stands
    // for the state after a first part of the turns, at the end with each turn of which anything was sent.
    ensures served { D.tells ≡ true → H.tells ≡ true → (s : State) → Stands s (room_files (D.seen disk.old))
        → ServesRoom s room.now (option_map access_of access) turns (H.happened hub.old) (H.happened hub.new)
        (D.seen disk.old) (D.seen disk.new) (D.images disk.new) (D.moment disk.old) (D.moment disk.new) result }
    // Where it is done the files stood for a state. Where one is found damaged, the opening found it so.
    ensures stood { D.tells ≡ true → OnOk result ((s : State) × Stands s (room_files (D.seen disk.old))) }
    ensures files { D.tells ≡ true → IfErr result (λ e. ((s : State) × Stands s (room_files (D.seen disk.old)))
        ⊎ (IsOfFiles (room_files (D.seen disk.old)) e × (hub.new ≡ hub.old))) }
    ensures whole { D.tells ≡ true → (s : State) → Stands s (room_files (D.seen disk.old)) → IfErr result IsWhole }
    ensures asked { H.asked hub.new ≤ H.asked hub.old + turns }
    ensures came { D.came disk.old disk.new }
    ensures causes { HasCauses D.faults D.inner_faults D.stopped H.tells H.happened H.asked H.faults disk.old disk.new
        hub.old hub.new result }
{
    let mut server: Server<T> = open(alloc, disk, room, access)?;
    run(alloc, &mut server, disk, hub, turns)
}
