//! The room of a disk's files is recovered and shown.
ghost use Rattle.std.specs.Prelude.{◌≡◌, ◌⊎◌, ℕ, [], take, true, IfOk, IfErr, OnOk};
ghost use Rattle.std.specs.Io.KnownBytes.{Appends};
ghost use Rattle.room_disk.specs.Model.{WithinWhole};
ghost use Rattle.room_edge.specs.Causes.{Rose};
ghost use Rattle.room_host.specs.Seen.{room_files};
ghost use Rattle.room_log.specs.Log.{State};
ghost use Rattle.room_replay.specs.Files.{Stands, StandsFor};
ghost use Rattle.room_server.specs.Commit.{HoldsNow};
ghost use Rattle.room_store.specs.Consistent.{AreWritten, BeforeOr};
ghost use Rattle.room_store.specs.Faults.{IsFault, HasDiskCause};
ghost use Rattle.room_top.specs.Commands.{Runs};
ghost use Rattle.room_top.specs.Ending.{Ends};
ghost use Rattle.room_top.specs.Outcome.{opened, room_line};
ghost use Rattle.room_top.specs.Recovery.{Recovers};

use crate::reporting::tell_damage;
use crate::texts::{room_line, told};
use room_disk::Disk;
use room_edge::Sink;
use room_json::Text;
use room_server::Server;
use room_store::{Limits, StoreFault};
use room_tree::Tree;
use std::alloc::Global;

/// Recovers the room of the first two files.
fn recover<T: Tree, D: Disk>(alloc: Global, disk: &mut D) -> Result<Server<T>, StoreFault>
    ensures state { D.tells ≡ true → IfOk result (λ h. Stands h.store.state (room_files (D.seen disk.old))) }
    ensures held { D.tells ≡ true → IfOk result (λ h. HoldsNow D.moment D.images 0 h.store.state disk.new) }
    ensures any_moment { D.tells ≡ true → (s : State) → Stands s (room_files (D.seen disk.old))
        → WithinWhole D.moment D.images disk.old disk.new
        (BeforeOr (D.images disk.old (D.moment disk.old)) (StandsFor 0 s)) }
    ensures written { D.tells ≡ true → OnOk result (AreWritten 0 (D.seen disk.new)) }
    ensures fault { D.tells ≡ true → IfErr result (λ e. (e ≡ StoreFault.Disk)
        ⊎ IsFault (room_files (D.seen disk.old)) e) }
    ensures cause { HasDiskCause D.faults D.inner_faults D.stopped disk.old disk.new result }
{
    let limits = Limits {
        updates: 1_000_000_000_000,
        sessions: 1_000_000,
    };
    let Ok(room) = Text::from_str(alloc, "room") else {
        return Err(StoreFault::Memory);
    };
    let Ok(empty) = T::empty(alloc) else {
        return Err(StoreFault::Memory);
    };
    Server::recover(alloc, disk, 0, &room, empty, limits)
}

/// Writes the line of a server's room.
fn tell_room<T: Tree, K: Sink>(alloc: Global, server: &Server<T>, sink: &mut K) -> u8
    ensures which { (result ≡ 0) ⊎ (result ≡ 1) ⊎ (result ≡ 4) }
    ensures all { result ≡ 0
        → Appends (K.written sink.old) (K.written sink.new) (room_line server.now.store.state) }
    ensures part { (n : ℕ)
        × Appends (K.written sink.old) (K.written sink.new) (take n (room_line server.now.store.state)) }
    ensures cause { result ≡ 4 → Rose (K.faults sink.old) (K.faults sink.new) }
{
    let store = server.store();
    match room_line(alloc, store.count(), store.sessions() as u64, store.tree()) {
        Ok(line) => told(sink, line.as_bytes(), 0),
        Err(_) => 1,
    }
}

/// Recovers the room of the disk's files, which is made where there is none, and writes its line.
pub(crate) fn show<T: Tree, K: Sink, D: Disk>(alloc: Global, sink: &mut K, disk: &mut D) -> u8
    ensures which { (result ≡ 0) ⊎ (result ≡ 1) ⊎ (result ≡ 4) ⊎ (result ≡ 5) ⊎ (result ≡ 7) }
    ensures ends { D.tells ≡ true → Ends (room_files (D.seen disk.old)) (Runs [])
        (opened (room_files (D.seen disk.old)) room_line) ⊥ (K.written sink.old) (K.written sink.new) result }
    ensures recovers { D.tells ≡ true → (s : State) → Stands s (room_files (D.seen disk.old))
        → Recovers (D.images disk.new) (D.seen disk.new) s [] (Rose (D.faults disk.old) (D.faults disk.new))
        (D.moment disk.old) (D.moment disk.new) result }
    ensures made { D.tells ≡ true → result ≡ 0 → AreWritten 0 (D.seen disk.new) }
    ensures sink_fault { result ≡ 4 → Rose (K.faults sink.old) (K.faults sink.new) }
    ensures disk_fault { result ≡ 5 → Rose (D.faults disk.old) (D.faults disk.new) }
{
    match recover::<T, D>(alloc, disk) {
        Ok(server) => tell_room(alloc, &server, sink),
        Err(StoreFault::Disk) => told(sink, b"disk fault\n", 5),
        Err(StoreFault::Damaged(file, at)) => tell_damage(alloc, file, at, sink),
        Err(_) => 1,
    }
}
