//! A world: the server, the clients, and what waits between them.
use room_fuse::Stopping;
use room_host::Host;
use room_queues::Queues;
use room_slots::Slots;
use room_tree::Tree;
use std::marker::Model;

/// A server, clients, and the connections between them. Contracts see these, and together with the server's disk the
/// model's world (`world_on`).
#[derive(Drop)]
pub struct World<T: Tree, D: Stopping> {
    pub(crate) host: Host<T>,
    pub(crate) slots: Slots<T>,
    pub(crate) queues: Queues<D>,
    /// How many connections were opened.
    pub(crate) opened: u64,
}

impl<T: Tree, D: Stopping> Model for World<T, D> {
    ghost use Rattle.room_world.specs.Codes.{peopled_code};
    ghost use Rattle.room_world.specs.Seen.{Peopled};

    ghost Value = { Peopled };

    ghost coded = { peopled_code };

    ghost view = { λ w. record { hosting = w.host; clients = w.slots; conns = w.queues; opened = w.opened } };
}
