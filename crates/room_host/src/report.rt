//! What a host shows in a report.
ghost use Rattle.std.specs.Prelude.{◌≡◌, IfOk};
ghost use Rattle.room_replay.specs.Files.{Files};
ghost use Rattle.room_model.specs.World.{server_shown, server_brief};
ghost use Rattle.room_host.specs.Seen.{host_in};
ghost use Rattle.room_host.specs.Outcomes.{start_shown};

use room_json::{NoMemory, Text};
use room_report::{brief_server, server_stopped, show_server, start, start_failed};
use room_server::Server;
use room_tree::Tree;
use std::alloc::Global;

/// The number of updates and the tree, or that it is stopped.
pub fn show<T: Tree>(alloc: Global, server: &Option<Server<T>>) -> Result<Text, NoMemory>
    ensures { (fs : Files) → IfOk result (λ t. t ≡ server_shown (host_in server.now fs)) }
{
    match server {
        Some(server) => show_server(alloc, server.store().count(), server.store().tree()),
        None => server_stopped(alloc),
    }
}

/// The number of updates, of nodes and of sessions, or that it is stopped.
pub fn brief<T: Tree>(alloc: Global, server: &Option<Server<T>>) -> Result<Text, NoMemory>
    ensures { (fs : Files) → IfOk result (λ t. t ≡ server_brief (host_in server.now fs)) }
{
    match server {
        Some(server) => {
            let store = server.store();
            brief_server(alloc, store.count(), store.tree(), store.sessions() as u64)
        },
        None => server_stopped(alloc),
    }
}

/// What a start that changed something did: the number of updates and of sessions that it found, or that it failed.
pub fn started<T: Tree>(alloc: Global, server: &Option<Server<T>>) -> Result<Text, NoMemory>
    ensures { (fs : Files) → IfOk result (λ t. t ≡ start_shown (host_in server.now fs)) }
{
    match server {
        Some(server) => {
            let store = server.store();
            start(alloc, store.count(), store.sessions() as u64)
        },
        None => start_failed(alloc),
    }
}
