//! Lines of the server.
ghost use Rattle.std.specs.Prelude.{◌≡◌, length, IfOk};
ghost use Rattle.room_log.specs.Log.{State};
ghost use Rattle.room_model.specs.Lines.{server_line, server_brief_line, server_stopped_line, start_line};
ghost use Rattle.room_model.specs.Lines.{start_failed_line};

use crate::words::{add, add_number};
use room_items::view;
use room_json::{NoMemory, Text, write};
use room_tree::Tree;
use std::alloc::Global;

/// The number of updates and the tree.
pub fn show_server<T: Tree>(alloc: Global, n: u64, tree: &T) -> Result<Text, NoMemory>
    ensures { (s : State) → s.count ≡ n → s.tree ≡ T.nodes tree.now → IfOk result (λ t. t ≡ server_line s) }
{
    let mut line = Text::from_str(alloc, "server n")?;
    add_number(alloc, &mut line, n)?;
    let shown = view(alloc, tree)?;
    let text = write(alloc, &shown)?;
    add(&mut line, text.as_str())?;
    Ok(line)
}

/// The number of updates, of nodes and of sessions.
pub fn brief_server<T: Tree>(
    alloc: Global,
    n: u64,
    tree: &T,
    sessions: u64,
) -> Result<Text, NoMemory>
    ensures { (s : State) → s.count ≡ n → s.tree ≡ T.nodes tree.now → length s.sessions ≡ sessions
        → IfOk result (λ t. t ≡ server_brief_line s) }
{
    let mut line = Text::from_str(alloc, "server n")?;
    add_number(alloc, &mut line, n)?;
    add(&mut line, "nodes")?;
    add_number(alloc, &mut line, tree.count())?;
    add(&mut line, "sessions")?;
    add_number(alloc, &mut line, sessions)?;
    Ok(line)
}

/// Of a server that is stopped.
pub fn server_stopped(alloc: Global) -> Result<Text, NoMemory>
    ensures { IfOk result (λ t. t ≡ server_stopped_line) }
{
    Text::from_str(alloc, "server stopped")
}

/// Of a server that started.
pub fn start(alloc: Global, n: u64, sessions: u64) -> Result<Text, NoMemory>
    ensures { (s : State) → s.count ≡ n → length s.sessions ≡ sessions → IfOk result (λ t. t ≡ start_line s) }
{
    let mut line = Text::from_str(alloc, "start n")?;
    add_number(alloc, &mut line, n)?;
    add(&mut line, "sessions")?;
    add_number(alloc, &mut line, sessions)?;
    Ok(line)
}

/// Of a server that stopped as it started.
pub fn start_failed(alloc: Global) -> Result<Text, NoMemory>
    ensures { IfOk result (λ t. t ≡ start_failed_line) }
{
    Text::from_str(alloc, "start failed")
}
