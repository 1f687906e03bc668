//! The state for a connection that asks for it, in parts.
ghost use Rattle.std.specs.Prelude.{◌≡◌, ◌≤◌, ◌++◌, ◌∷◌, [], map, length, IfOk, OnOk};
ghost use Rattle.room_json.specs.View.{json_of};
ghost use Rattle.room_log.specs.Follows.{most};
ghost use Rattle.room_links.specs.Outs.{written};
ghost use Rattle.room_msg.specs.declared.messages.ServerMsg.TheVariants as server;
ghost use Rattle.room_model.specs.Server as model;
ghost use Rattle.room_arrivals.specs.Serving.{Serves};
ghost use Rattle.room_arrivals.specs.Seats.{AreSeated};

use crate::draft::{Draft, Setting};
use room_items::write_items;
use room_json::{Copied, Items, Json, NoMemory};
use room_links::{Out, Outs};
use room_msg::{ServerMsg, write_server};
use room_store::Store;
use room_tree::Tree;
use std::alloc::Global;

fn copy_items(alloc: Global, items: &[Json]) -> Result<Items, NoMemory>
    ensures { IfOk result (λ vs. vs ≡ map json_of items.now) }
{
    let mut copies = Items::new(alloc);
    for item in items {
        copies.push(item.copy(alloc)?)?;
    }
    Ok(copies)
}

/// One part of a state.
fn send_part(
    alloc: Global,
    outs: &mut Outs,
    conn: u64,
    seq: u64,
    last: u64,
    items: &[Json],
    more: bool,
) -> Result<(), NoMemory>
    requires seq { seq ≤ most }
    requires last { last ≤ most }
    ensures { OnOk result (outs.new ≡ outs.old ++ written
        (conn, model.Message (server.State seq last (map json_of items.now) more)) ∷ []) }
{
    let items = copy_items(alloc, items)?;
    let msg = ServerMsg::State {
        seq,
        last,
        items,
        more,
    };
    outs.push(Out::Send(conn, write_server(alloc, &msg)?))
}

/// A state, in parts of 1,000 items, the last with the rest.
#[tactic(auto, using(crate::proofs::Parted::cuts))]
fn send_parts(
    alloc: Global,
    outs: &mut Outs,
    conn: u64,
    seq: u64,
    last: u64,
    items: &[Json],
) -> Result<(), NoMemory>
    requires seq { seq ≤ most }
    requires last { last ≤ most }
    ensures { OnOk result (outs.new ≡ outs.old
        ++ map written (model.part_sends conn seq last (model.parts_of (map json_of items.now)))) }
{
    let mut rest = items;
    while rest.len() > 1_000 {
        let (part, after) = rest.split_at(1_000);
        send_part(alloc, outs, conn, seq, last, part, true)?;
        rest = after;
    }
    send_part(alloc, outs, conn, seq, last, rest, false)
}

/// The state goes to a connection, and from then on each update does.
#[tactic(auto, using(crate::proofs::Seating::seats, crate::proofs::Clocks::last_low))]
pub fn fetch<T: Tree>(
    alloc: Global,
    store: &Store<T>,
    setting: &Setting,
    draft: &mut Draft,
    conn: u64,
    actor: u32,
) -> Result<(), NoMemory>
    requires seated { AreSeated (length store.now.state.sessions) draft.old.links }

    ensures serves { OnOk result (Serves setting.now store.now store.now draft.old draft.new
        (λ v. model.fetch v conn actor)) }
    ensures seated { OnOk result (AreSeated (length store.now.state.sessions) draft.new.links) }
    ensures group { draft.new.group ≡ draft.old.group }
{
    store.valid();
    let items = write_items(alloc, store.tree())?;
    send_parts(
        alloc,
        &mut draft.outs,
        conn,
        store.count(),
        store.last_of(actor),
        items.as_slice(),
    )?;
    let Some(link) = draft.links.get(conn) else {
        return Ok(());
    };
    let link = link.after_fetch();
    draft.links.set(conn, link)?;
    Ok(())
}
