//! What the messages of a session do, in their order.
ghost use Rattle.std.specs.Prelude.{◌≡◌, ◌++◌, map, length, ℕ, List, Option, IfOk, OnOk, IsSome};
ghost use Rattle.room_json.specs.Value.{Value};
ghost use Rattle.room_links.specs.Links.{to_whom};
ghost use Rattle.room_msg.specs.declared.messages.ServerMsg.TheVariants as server;
ghost use Rattle.room_nodes.specs.Shallow.{AreShallowOps};
ghost use Rattle.room_log.specs.Log.{Update, session_of};
ghost use Rattle.room_log.specs.Taking as taking;
ghost use Rattle.room_links.specs.Outs.{written};
ghost use Rattle.room_msg.specs.Laws.{IsTarget, IsSendable};
ghost use Rattle.room_msg.specs.Sound.{AreSoundClientMsgs};
ghost use Rattle.room_model.specs.Server as model;
ghost use Rattle.room_store.specs.Stored.{IsOpen};
ghost use Rattle.room_arrivals.specs.Serving.{Serves, Keeps};
ghost use Rattle.room_arrivals.specs.Seats.{AreSeated};
ghost use Rattle.room_arrivals.specs.Waiting.{Waits};

use crate::draft::{Draft, Setting};
use crate::fetching::fetch;
use room_json::{Copied, Members, NoMemory};
use room_links::{Links, Outs, Whom};
use room_msg::{ClientMsg, ServerMsg};
use room_nodes::Ops;
use room_store::{Store, Taken};
use room_tree::Tree;
use std::alloc::Global;

/// To whom a presence goes: without a target and at -1 to the others, else to one actor.
fn whom_of(conn: u64, target: Option<i64>) -> Whom
    requires { IsTarget target }
    ensures { (v : model.Server) (actor : ℕ) (patch : List (List ℕ × Value))
        → to_whom result (model.Message (server.Presence actor target patch)) v.links
        ≡ model.presence_sends v conn actor target patch }
{
    match target {
        Some(actor) => {
            if actor >= 0 {
                Whom::Holder(actor as u32)
            } else {
                Whom::Others(conn)
            }
        },
        None => Whom::Others(conn),
    }
}

/// What an actor shows goes to the others, or to one.
fn show(
    alloc: Global,
    links: &Links,
    outs: &mut Outs,
    conn: u64,
    actor: u32,
    target: Option<i64>,
    patch: &Members,
) -> Result<(), NoMemory>
    requires { IsTarget target }
    ensures { (v : model.Server) → v.links ≡ links.now → OnOk result
        (outs.new ≡ outs.old ++ map written (model.presence_sends v conn actor target patch.now)) }
{
    let patch = patch.copy(alloc)?;
    let msg = ServerMsg::Presence {
        actor,
        target,
        patch,
    };
    links.say(alloc, outs, whom_of(conn, target), &msg)
}

/// The update of a frame is planned, and goes to each connection that has fetched.
#[tactic(auto, using(crate::proofs::Seating::seats, crate::proofs::Clocks::answers))]
fn update<T: Tree>(
    alloc: Global,
    store: &mut Store<T>,
    setting: &Setting,
    draft: &mut Draft,
    actor: u32,
    ops: &Ops,
) -> Result<(), NoMemory>
    requires group { IsOpen store.old draft.old.group }
    requires session { IsSome (session_of store.old.state.sessions actor) }
    requires shallow { AreShallowOps ops.now }
    requires seated { AreSeated (length store.old.state.sessions) draft.old.links }

    ensures serves { (u : Update) → taking.take store.old.state actor ops.now ≡ taking.Takes u
        → OnOk result (Serves setting.now store.old store.new draft.old draft.new (λ v. model.commit v u)) }
    ensures session { IsSome (session_of store.new.state.sessions actor) }
    ensures group { IsOpen store.new draft.new.group }
    ensures seated { OnOk result (AreSeated (length store.new.state.sessions) draft.new.links) }
    ensures keeps { Keeps store.old store.new }
{
    match store.plan(alloc, &mut draft.group, actor, ops) {
        Ok(Taken::Update { seq, ops }) => {
            store.valid();
            let msg = ServerMsg::Update { seq, ops };
            draft.links.say(alloc, &mut draft.outs, Whom::Fetched, &msg)
        },
        Ok(Taken::Nothing) => Ok(()),
        Err(_) => Err(NoMemory),
    }
}

/// One message of a session. Answers whether the frame's update still waits.
fn act<T: Tree>(
    alloc: Global,
    store: &mut Store<T>,
    setting: &Setting,
    draft: &mut Draft,
    conn: u64,
    actor: u32,
    ops: &Ops,
    waits: bool,
    msg: &ClientMsg,
) -> Result<bool, NoMemory>
    requires group { IsOpen store.old draft.old.group }
    requires session { IsSome (session_of store.old.state.sessions actor) }
    requires shallow { AreShallowOps ops.now }
    requires seated { AreSeated (length store.old.state.sessions) draft.old.links }
    requires sendable { IsSendable msg.now }

    ensures serves { (u : Option Update) → Waits waits (taking.take store.old.state actor ops.now) u
        → OnOk result (Serves setting.now store.old store.new draft.old draft.new
        (λ v. model.acts v conn actor u msg.now)) }
    ensures waits { (u : Option Update) → Waits waits (taking.take store.old.state actor ops.now) u
        → IfOk result (λ w. Waits w (taking.take store.new.state actor ops.now) (model.waits_after u msg.now)) }
    ensures session { OnOk result (IsSome (session_of store.new.state.sessions actor)) }
    ensures group { IsOpen store.new draft.new.group }
    ensures seated { OnOk result (AreSeated (length store.new.state.sessions) draft.new.links) }
    ensures keeps { Keeps store.old store.new }
{
    match msg {
        ClientMsg::Hello(_) => Ok(waits),
        ClientMsg::Presence { target, patch } => {
            show(
                alloc,
                &draft.links,
                &mut draft.outs,
                conn,
                actor,
                *target,
                patch,
            )?;
            Ok(waits)
        },
        ClientMsg::Broadcast(event) => {
            let event = event.copy(alloc)?;
            let msg = ServerMsg::Broadcast { actor, event };
            draft
                .links
                .say(alloc, &mut draft.outs, Whom::Others(conn), &msg)?;
            Ok(waits)
        },
        ClientMsg::Fetch => {
            fetch(alloc, &*store, setting, draft, conn, actor)?;
            Ok(waits)
        },
        ClientMsg::Update(_) => {
            if waits {
                update(alloc, store, setting, draft, actor, ops)?;
            }
            Ok(false)
        },
    }
}

/// All messages of a session's frame in their order. Its operations make one update, done at the place of the first
/// message that holds operations; `waits` says that there is one.
pub fn act_all<T: Tree>(
    alloc: Global,
    store: &mut Store<T>,
    setting: &Setting,
    draft: &mut Draft,
    conn: u64,
    actor: u32,
    ops: &Ops,
    waits: bool,
    msgs: &[ClientMsg],
) -> Result<(), NoMemory>
    requires group { IsOpen store.old draft.old.group }
    requires session { IsSome (session_of store.old.state.sessions actor) }
    requires shallow { AreShallowOps ops.now }
    requires seated { AreSeated (length store.old.state.sessions) draft.old.links }
    requires sound { AreSoundClientMsgs msgs.now }

    ensures serves { (u : Option Update) → Waits waits (taking.take store.old.state actor ops.now) u
        → OnOk result (Serves setting.now store.old store.new draft.old draft.new
        (λ v. model.act_all v conn actor u msgs.now)) }
    ensures group { IsOpen store.new draft.new.group }
    ensures seated { OnOk result (AreSeated (length store.new.state.sessions) draft.new.links) }
    ensures keeps { Keeps store.old store.new }
{
    let mut waits = waits;
    for msg in msgs {
        waits = act(alloc, store, setting, draft, conn, actor, ops, waits, msg)?;
    }
    Ok(())
}
