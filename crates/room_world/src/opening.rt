//! A world begins.
ghost use Rattle.std.specs.Prelude.{◌≡◌, ◌⊎◌, true, false, IfOk, IfErr, OnOk};
ghost use Rattle.room_disk.specs.Model.{WithinWhole};
ghost use Rattle.room_host.specs.Faults.{HasDiskCause, IsFault};
ghost use Rattle.room_host.specs.Rests.{IsKept, Rests};
ghost use Rattle.room_host.specs.Seen.{room_files};
ghost use Rattle.room_log.specs.Log.{State};
ghost use Rattle.room_model.specs.World.{opening};
ghost use Rattle.room_replay.specs.Files.{Stands, StandsFor};
ghost use Rattle.room_store.specs.Consistent.{BeforeOr};
ghost use Rattle.room_world.specs.Seen.{world_on};

use crate::world::World;
use room_disk::Disk;
use room_fuse::Stopping;
use room_host::{Host, HostFault};
use room_queues::Queues;
use room_slots::Slots;
use room_tree::Tree;
use std::alloc::Global;

impl<T: Tree, D: Stopping> World<T, D> {
    /// A world without clients, whose server recovers the room of the disk's first two files. The disk isn't armed.
    pub fn new(alloc: Global, disk: &mut D) -> Result<World<T, D>, HostFault>
        requires going { D.stopped disk.old ≡ false }
        requires unarmed { D.armed disk.old ≡ 0 }

        ensures kept { D.tells ≡ true → IfOk result (λ w. IsKept (D.seen disk.new)
            (D.images disk.new (D.moment disk.new)) w.hosting.server) }
        ensures rests { D.tells ≡ true → D.stops ≡ true → Rests D.seen D.stopped D.leaves disk.old
            → OnOk result (Rests D.seen D.stopped D.leaves disk.new) }
        // It is the model's opening world, over the state that the files stand for.
        ensures world { D.tells ≡ true → (s : State) → Stands s (room_files (D.seen disk.old))
            → IfOk result (λ w. world_on D.seen D.armed D.way w disk.new ≡ opening s) }
        ensures opened { IfOk result (λ w. w.opened ≡ 0) }
        ensures state { D.tells ≡ true
            → OnOk result ((s : State) × Stands s (room_files (D.seen disk.old))) }
        ensures images { D.tells ≡ true → (s : State) → Stands s (room_files (D.seen disk.old))
            → WithinWhole D.moment D.images disk.old disk.new
            (BeforeOr (D.images disk.old (D.moment disk.old)) (StandsFor 0 s)) }
        ensures fault { D.tells ≡ true → IfErr result (λ e. (e ≡ HostFault.Disk)
            ⊎ IsFault (room_files (D.seen disk.old)) e) }
        ensures went { D.went disk.old disk.new }
        ensures cause { HasDiskCause D.faults D.inner_faults disk.old disk.new result }
    {
        match Host::new(alloc, disk) {
            Ok(host) => Ok(World {
                host,
                slots: Slots::new(alloc),
                queues: Queues::new(alloc),
                opened: 0,
            }),
            Err(fault) => Err(fault),
        }
    }
}
