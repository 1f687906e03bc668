//! The server of a room.
ghost use Rattle.std.specs.Prelude.{◌≡◌, ◌⊎◌, ◌≤◌, ◌<◌, ◌^◌, ◌+◌, ℕ, map, true, false, [], None, Some, IsSome, is_some};
ghost use Rattle.std.specs.Prelude.{IfOk, IfErr, OnOk, OnErr, IsErr, IsErrOf};
ghost use Rattle.std.specs.FinMap.{get};
ghost use Rattle.room_disk.specs.Model.{Within, WithinWhole};
ghost use Rattle.room_nodes.specs.Shape.{empty_tree};
ghost use Rattle.room_log.specs.Log.{State};
ghost use Rattle.room_log.specs.Follows.{most};
ghost use Rattle.room_journal.specs.Appends.{IsClean};
ghost use Rattle.room_journal.specs.Files.{reading};
ghost use Rattle.room_replay.specs.Files.{Stands, StandsFor, files};
ghost use Rattle.room_msg.specs.Frame.{client_frame_in};
ghost use Rattle.room_links.specs.Outs.{written};
ghost use Rattle.room_model.specs.Server as model;
ghost use Rattle.room_store.specs.Stored.{IsOnDisk};
ghost use Rattle.room_store.specs.Calls.{Compacts};
ghost use Rattle.room_store.specs.Consistent.{BeforeOr, Since, Elsewhere, IsStill, AreWritten};
ghost use Rattle.room_store.specs.Faults.{IsFault, HasDiskCause as HasStoreCause};
ghost use Rattle.room_arrivals.specs.Serving.{limits_of, listed};
ghost use Rattle.room_server.specs.Commit.{Puts, Stops, HoldsNow};
ghost use Rattle.room_server.specs.Faults.{IsBroken, HasDiskCause};
ghost use Rattle.room_server.specs.Hosted.{server_in, broken_by, no_links};
ghost use Rattle.room_server.specs.Turn.{turned};

use crate::arrivals::Arrivals;
use crate::fault::{ServerFault, as_server};
use crate::turning::{begin, finish, take_all};
use room_access::Access;
use room_arrivals::{Draft, Setting, arrive, gone, opened};
use room_disk::Disk;
use room_json::{Copied, NoMemory, Text};
use room_links::{Links, Outs};
use room_store::{Cause, Limits, Store, StoreFault};
use room_tree::Tree;
use std::alloc::Global;
use std::marker::Model;

/// A room's store, its name, who may do what, and the attached connections. Contracts see these, and by `server_in` the
/// model's server.
#[derive(Drop)]
pub struct Server<T: Tree> {
    store: Store<T>,
    setting: Setting,
    links: Links,
    /// A turn was out of memory.
    spent: bool,
}

impl<T: Tree> Model for Server<T> {
    ghost use Rattle.room_server.specs.Codes.{hosted_code};
    ghost use Rattle.room_server.specs.Hosted.{Hosted, IsAtRest};

    ghost Value = { Hosted };

    ghost coded = { hosted_code };

    ghost view = { λ s. record { store = s.store; setting = s.setting; links = s.links; spent = s.spent } };

    ghost invariant = { λ s. IsAtRest s.store s.links };
}

impl<T: Tree> Server<T> {
    /// Recovers the room of this name, with no connection, and no access asked for. See `Store::recover`.
    pub fn recover<D: Disk>(
        alloc: Global,
        disk: &mut D,
        base: u32,
        room: &Text,
        empty: T,
        limits: Limits,
    ) -> Result<Server<T>, StoreFault>
        requires base { base + 1 < 2 ^ 32 }
        requires empty { T.nodes empty ≡ empty_tree }
        requires limits { limits.updates ≤ most }

        ensures base { IfOk result (λ s. s.store.place.base ≡ base) }
        ensures whole { IfOk result (λ s. broken_by s ≡ None) }
        ensures server { IfOk result (λ s. server_in s ≡ record {
          state = s.store.state;
          room = room.now;
          limits = limits_of limits;
          access = None;
          links = no_links;
        }) }
        // The state is the one that the files stand for as they read, and it is on the disk.
        ensures state { D.tells ≡ true → IfOk result (λ s.
            Stands s.store.state (files base (D.seen disk.old base) (D.seen disk.old (base + 1)))) }
        ensures settled { D.tells ≡ true → IfOk result (λ s.
            IsOnDisk (D.seen disk.new) (D.images disk.new (D.moment disk.new)) s.store) }
        ensures any_moment { D.tells ≡ true → (s : State)
            → Stands s (files base (D.seen disk.old base) (D.seen disk.old (base + 1)))
            → WithinWhole D.moment D.images disk.old disk.new
            (BeforeOr (D.images disk.old (D.moment disk.old)) (StandsFor base s)) }
        ensures since { D.tells ≡ true → IfOk result (λ s.
            Since (D.moment disk.old + 2) (D.moment disk.new) (D.images disk.new) (StandsFor base s.store.state)) }
        // At its return each image stands for it.
        ensures held { D.tells ≡ true
            → IfOk result (λ s. HoldsNow D.moment D.images base s.store.state disk.new) }
        ensures others { D.tells ≡ true → (f : ℕ) → (f ≡ base → ⊥) → (f ≡ base + 1 → ⊥)
            → D.seen disk.new f ≡ D.seen disk.old f }
        ensures elsewhere { D.tells ≡ true → Within D.moment D.images disk.old disk.new
            (Elsewhere base (D.images disk.old (D.moment disk.old))) }
        // However it ends, it makes no more calls than these; where no file is made, the two syncs alone.
        ensures bound { D.tells ≡ true → D.moment disk.new ≤ D.moment disk.old + 8 }
        ensures two { D.tells ≡ true → IsStill (reading base (D.seen disk.old base) (D.seen disk.old (base + 1)))
            → D.moment disk.new ≤ D.moment disk.old + 2 }
        ensures counted { D.tells ≡ true
            → IsStill (reading base (D.seen disk.old base) (D.seen disk.old (base + 1)))
            → OnOk result (D.moment disk.new ≡ D.moment disk.old + 2) }
        ensures still { D.tells ≡ true → IsStill (reading base (D.seen disk.old base) (D.seen disk.old (base + 1)))
            → Within D.moment D.images disk.old disk.new (D.images disk.old (D.moment disk.old)) }
        // The next recovery makes no file.
        ensures written { D.tells ≡ true → OnOk result (AreWritten base (D.seen disk.new)) }
        ensures fault { D.tells ≡ true → IfErr result (λ e. (e ≡ StoreFault.Disk)
            ⊎ IsFault (files base (D.seen disk.old base) (D.seen disk.old (base + 1))) e) }
        ensures stop_fails { D.stopped disk.old ≡ false → D.stopped disk.new ≡ true → IsErr result }
        ensures clean { D.tells ≡ true → D.stops ≡ true → D.stopped disk.old ≡ false
            → IsClean D.seen D.leaves disk.old → OnOk result (IsClean D.seen D.leaves disk.new) }
        ensures came { D.came disk.old disk.new }
        ensures cause { HasStoreCause D.faults D.inner_faults D.stopped disk.old disk.new result }
    {
        let room = room.copy(alloc)?;
        match Store::recover(alloc, disk, base, empty, limits) {
            Ok(store) => Ok(Server {
                store,
                setting: Setting { room, access: None },
                links: Links::new(alloc),
                spent: false,
            }),
            Err(fault) => Err(fault),
        }
    }

    /// Whether it is broken, and by what.
    fn check(&self) -> Result<(), ServerFault>
        ensures broken { IsBroken (broken_by self.now) (broken_by self.now) result }
        ensures whole { OnOk result (broken_by self.now ≡ None) }
        ensures refused { OnErr result (IsSome (broken_by self.now)) }
        ensures memory { IsErrOf result ServerFault.Memory → ⊥ }
    {
        if self.spent {
            return Err(ServerFault::Broken(Cause::Memory));
        }
        match self.store.broken() {
            Some(cause) => Err(ServerFault::Broken(cause)),
            None => Ok(()),
        }
    }

    /// A connection begins, with the key of a session that begins on it. A number that is attached stays as it is. A
    /// refused call changes nothing.
    pub fn opened(&mut self, conn: u64, key: u64) -> Result<(), NoMemory>
        ensures server { OnOk result (server_in self.new ≡ model.opened (server_in self.old) conn key) }
        ensures err { OnErr result (self.new ≡ self.old) }
        ensures store { self.new.store ≡ self.old.store }
        ensures spent { self.new.spent ≡ self.old.spent }
    {
        opened(&mut self.links, conn, key)
    }

    /// A connection is gone: what goes out for it. One that isn't attached changes nothing. A refused call changes nothing.
    pub fn gone(&mut self, alloc: Global, conn: u64) -> Result<Outs, NoMemory>
        ensures outs { IfOk result (λ os. os ≡ map written (model.gone (server_in self.old) conn).outs) }
        ensures server { OnOk result (server_in self.new ≡ (model.gone (server_in self.old) conn).server) }
        ensures err { OnErr result (self.new ≡ self.old) }
        ensures store { self.new.store ≡ self.old.store }
        ensures spent { self.new.spent ≡ self.old.spent }
    {
        let mut outs = Outs::new(alloc);
        gone(alloc, &mut self.links, &mut outs, conn)?;
        Ok(outs)
    }

    /// A frame of a connection: what goes out for it, once its entry, if it has one, is on the disk by four calls.
    ///
    /// `Broken` before anything else. After any Err the state and the connections are as before the call. Copies the
    /// attached connections.
    pub fn frame<D: Disk>(
        &mut self,
        alloc: Global,
        disk: &mut D,
        conn: u64,
        text: &Text,
    ) -> Result<Outs, ServerFault>
        requires settled { D.tells ≡ true
            → IsOnDisk (D.seen disk.old) (D.images disk.old (D.moment disk.old)) self.old.store }

        ensures outs { IfOk result (λ os.
            os ≡ map written (model.serve (server_in self.old) conn (client_frame_in text.now)).outs) }
        ensures server { OnOk result (server_in self.new
            ≡ (model.serve (server_in self.old) conn (client_frame_in text.now)).server) }
        ensures err { OnErr result (server_in self.new ≡ server_in self.old) }
        ensures settled { D.tells ≡ true
            → IsOnDisk (D.seen disk.new) (D.images disk.new (D.moment disk.new)) self.new.store }
        // Its entry is put on the disk, from the state before to the model's; without one the disk isn't touched.
        ensures puts { D.tells ≡ true → broken_by self.old ≡ None
            → Puts D.seen D.moment D.images self.old.store.place self.new.store.place
            (listed (model.serve (server_in self.old) conn (client_frame_in text.now)).entry) self.old.store.state
            (model.serve (server_in self.old) conn (client_frame_in text.now)).server.state disk.old disk.new result }
        ensures stop { D.tells ≡ true → D.stops ≡ true → D.stopped disk.old ≡ false → broken_by self.old ≡ None
            → Stops D.seen D.moment D.stopped D.leaves self.old.store.place.base
            (listed (model.serve (server_in self.old) conn (client_frame_in text.now)).entry) self.old.store.state
            (model.serve (server_in self.old) conn (client_frame_in text.now)).server.state disk.old disk.new result }
        // What goes out is answered only where each image of the disk holds the state after it.
        ensures held { D.tells ≡ true → OnOk result
            (HoldsNow D.moment D.images self.new.store.place.base self.new.store.state disk.new) }
        ensures none { (model.serve (server_in self.old) conn (client_frame_in text.now)).entry ≡ None
            → disk.new ≡ disk.old }
        ensures base { OnOk result (self.new.store.place.base ≡ self.old.store.place.base) }
        ensures broken { IsBroken (broken_by self.old) (broken_by self.new) result }
        // Out of memory: nothing has changed, unless the disk was out of memory, which breaks the server.
        ensures memory { IsErrOf result ServerFault.Memory → broken_by self.new ≡ None
            → (self.new ≡ self.old) × (disk.new ≡ disk.old) }
        ensures short { IsErrOf result ServerFault.Memory → (disk.new ≡ disk.old) ⊎ (D.may_run_out ≡ true) }
        ensures untouched { IsSome (broken_by self.old) → (self.new ≡ self.old) × (disk.new ≡ disk.old) }
        ensures spent { self.new.spent ≡ self.old.spent }
        ensures came { D.came disk.old disk.new }
        ensures cause { HasDiskCause D.faults D.inner_faults D.stopped disk.old disk.new result }
    {
        self.check()?;
        let mut draft = begin(alloc, &self.links)?;
        match arrive(
            alloc,
            &mut self.store,
            &self.setting,
            &mut draft,
            conn,
            text,
        ) {
            Ok(()) => finish(&mut self.store, &mut self.links, disk, draft),
            Err(NoMemory) => {
                self.store.drop_group(draft.group);
                Err(ServerFault::Memory)
            },
        }
    }

    /// All arrivals of a turn, in their order: what goes out for them, once their entries, if there are some, are on the
    /// disk by one commit of four calls.
    ///
    /// `Broken` before anything else. After any Err the state and the connections are as before the call; after `Memory`
    /// the server is broken. Copies the attached connections.
    pub fn turn<D: Disk>(
        &mut self,
        alloc: Global,
        disk: &mut D,
        arrivals: &Arrivals,
    ) -> Result<Outs, ServerFault>
        requires settled { D.tells ≡ true
            → IsOnDisk (D.seen disk.old) (D.images disk.old (D.moment disk.old)) self.old.store }

        ensures outs { IfOk result (λ os. os ≡ map written (turned (server_in self.old) arrivals.now).outs) }
        ensures server { OnOk result (server_in self.new ≡ (turned (server_in self.old) arrivals.now).server) }
        ensures err { OnErr result (server_in self.new ≡ server_in self.old) }
        ensures settled { D.tells ≡ true
            → IsOnDisk (D.seen disk.new) (D.images disk.new (D.moment disk.new)) self.new.store }
        // The entries of all arrivals are put on the disk together; without one the disk isn't touched.
        ensures puts { D.tells ≡ true → broken_by self.old ≡ None
            → Puts D.seen D.moment D.images self.old.store.place self.new.store.place
            (turned (server_in self.old) arrivals.now).entries self.old.store.state
            (turned (server_in self.old) arrivals.now).server.state disk.old disk.new result }
        ensures stop { D.tells ≡ true → D.stops ≡ true → D.stopped disk.old ≡ false → broken_by self.old ≡ None
            → Stops D.seen D.moment D.stopped D.leaves self.old.store.place.base
            (turned (server_in self.old) arrivals.now).entries self.old.store.state
            (turned (server_in self.old) arrivals.now).server.state disk.old disk.new result }
        // What goes out is answered only where each image of the disk holds the state after all of them.
        ensures held { D.tells ≡ true → OnOk result
            (HoldsNow D.moment D.images self.new.store.place.base self.new.store.state disk.new) }
        ensures none { (turned (server_in self.old) arrivals.now).entries ≡ [] → disk.new ≡ disk.old }
        ensures base { OnOk result (self.new.store.place.base ≡ self.old.store.place.base) }
        ensures broken { IsBroken (broken_by self.old) (broken_by self.new) result }
        ensures memory { IsErrOf result ServerFault.Memory → broken_by self.new ≡ Some Cause.Memory }
        // Out of memory: the store is as before, unless the disk was out of memory.
        ensures dropped { IsErrOf result ServerFault.Memory → self.new.store.broken ≡ None
            → (self.new.store ≡ self.old.store) × (disk.new ≡ disk.old) }
        ensures short { IsErrOf result ServerFault.Memory → (disk.new ≡ disk.old) ⊎ (D.may_run_out ≡ true) }
        ensures untouched { IsSome (broken_by self.old) → (self.new ≡ self.old) × (disk.new ≡ disk.old) }
        ensures came { D.came disk.old disk.new }
        ensures cause { HasDiskCause D.faults D.inner_faults D.stopped disk.old disk.new result }
    {
        self.check()?;
        let Ok(mut draft) = begin(alloc, &self.links) else {
            self.spent = true;
            return Err(ServerFault::Memory);
        };
        match take_all(
            alloc,
            &mut self.store,
            &self.setting,
            &mut draft,
            arrivals.as_slice(),
        ) {
            Ok(()) => finish(&mut self.store, &mut self.links, disk, draft),
            Err(NoMemory) => {
                self.store.drop_group(draft.group);
                self.spent = true;
                Err(ServerFault::Memory)
            },
        }
    }

    /// The state is written as the snapshot of a file of the next generation. `Broken` before anything else. See
    /// `Store::compact`.
    pub fn compact<D: Disk>(&mut self, alloc: Global, disk: &mut D) -> Result<(), ServerFault>
        requires settled { D.tells ≡ true
            → IsOnDisk (D.seen disk.old) (D.images disk.old (D.moment disk.old)) self.old.store }

        ensures server { server_in self.new ≡ server_in self.old }
        ensures settled { D.tells ≡ true
            → IsOnDisk (D.seen disk.new) (D.images disk.new (D.moment disk.new)) self.new.store }
        ensures compacts { D.tells ≡ true → broken_by self.old ≡ None
            → Compacts D.seen D.moment D.images self.old.store.place self.new.store.place self.old.store.state
            disk.old disk.new result }
        ensures bound { D.tells ≡ true → D.moment disk.new ≤ D.moment disk.old + 6 }
        ensures base { self.new.store.place.base ≡ self.old.store.place.base }
        ensures broken { IsBroken (broken_by self.old) (broken_by self.new) result }
        // Out of memory: nothing has changed, unless the disk was out of memory, which breaks the server.
        ensures memory { IsErrOf result ServerFault.Memory → broken_by self.new ≡ None
            → (self.new ≡ self.old) × (disk.new ≡ disk.old) }
        ensures short { IsErrOf result ServerFault.Memory → (disk.new ≡ disk.old) ⊎ (D.may_run_out ≡ true) }
        ensures untouched { IsSome (broken_by self.old) → (self.new ≡ self.old) × (disk.new ≡ disk.old) }
        ensures spent { self.new.spent ≡ self.old.spent }
        ensures stop_fails { D.stopped disk.old ≡ false → D.stopped disk.new ≡ true → IsErr result }
        ensures clean { D.tells ≡ true → D.stops ≡ true → D.stopped disk.old ≡ false
            → IsClean D.seen D.leaves disk.old → OnOk result (IsClean D.seen D.leaves disk.new) }
        ensures came { D.came disk.old disk.new }
        ensures cause { HasDiskCause D.faults D.inner_faults D.stopped disk.old disk.new result }
    {
        self.check()?;
        match self.store.compact(alloc, disk) {
            Ok(()) => Ok(()),
            Err(fault) => Err(as_server(fault)),
        }
    }

    /// Whether a connection is attached.
    pub fn is_attached(&self, conn: u64) -> bool
        ensures { result ≡ is_some (get self.now.links conn) }
    {
        self.links.get(conn).is_some()
    }

    /// The store.
    pub fn store(&self) -> &Store<T>
        ensures { result.now ≡ self.now.store }
    {
        &self.store
    }

    /// Other limits, from the next frame on.
    pub fn set_limits(&mut self, limits: Limits)
        requires { limits.updates ≤ most }
        ensures { self.new ≡ record self.old { store = record self.old.store { limits = limits } } }
    {
        self.store.set_limits(limits);
    }

    /// Who may do what, from the next hello on; without it everything may be done.
    pub fn set_access(&mut self, access: Option<Access>)
        ensures { self.new ≡ record self.old { setting = record self.old.setting { access = access } } }
    {
        self.setting.access = access;
    }
}
