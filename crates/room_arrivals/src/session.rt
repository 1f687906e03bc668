//! The tests of a session's frame, after those of its text, in their order.
ghost use Rattle.std.specs.Prelude.{◌≡◌, ◌++◌, length, All, IfOk, OnOk, IsSome};
ghost use Rattle.room_nodes.specs.Shallow.{AreShallowOps};
ghost use Rattle.room_log.specs.Log.{session_of};
ghost use Rattle.room_log.specs.Taking.{take};
ghost use Rattle.room_msg.specs.Sound.{AreSoundClientMsgs, IsShallowClientMsg};
ghost use Rattle.room_model.specs.Server as model;
ghost use Rattle.room_store.specs.Stored.{IsOpen};
ghost use Rattle.room_arrivals.specs.Serving.{Serves, Keeps};
ghost use Rattle.room_arrivals.specs.Seats.{AreSeated};

use crate::acting::act_all;
use crate::closing::{bad_frame, shut};
use crate::draft::{Draft, Setting};
use crate::needs::barred;
use crate::news::{News, news_for};
use crate::texts::{counted_text, expected_text, refusal_text};
use room_ids::OpId;
use room_json::{Copied, NoMemory};
use room_links::Link;
use room_msg::{ClientMsg, Reason};
use room_nodes::{Op, Ops};
use room_store::Store;
use room_tree::Tree;
use std::alloc::Global;

fn has_hello(msgs: &[ClientMsg]) -> bool
    ensures { result ≡ model.has_hello msgs.now }
{
    for msg in msgs {
        if let ClientMsg::Hello(_) = msg {
            return true;
        }
    }
    false
}

/// Puts the operations of a message behind others.
fn push_ops(alloc: Global, all: &mut Ops, msg: &ClientMsg) -> Result<(), NoMemory>
    ensures { OnOk result (all.new ≡ all.old ++ model.ops_in msg.now) }
{
    let ClientMsg::Update(ops) = msg else {
        return Ok(());
    };
    push_each(alloc, all, ops.as_slice())
}

fn push_each(alloc: Global, all: &mut Ops, ops: &[Op]) -> Result<(), NoMemory>
    ensures { OnOk result (all.new ≡ all.old ++ ops.now) }
{
    for op in ops {
        all.push(op.copy(alloc)?)?;
    }
    Ok(())
}

/// All operations of a frame, in their order.
fn all_ops(alloc: Global, msgs: &[ClientMsg]) -> Result<Ops, NoMemory>
    ensures { IfOk result (λ os. os ≡ model.all_ops_in msgs.now) }
{
    let mut all = Ops::new(alloc);
    for msg in msgs {
        push_ops(alloc, &mut all, msg)?;
    }
    Ok(all)
}

/// The first actor of operations that is another.
fn foreign_in(actor: u32, ops: &[Op]) -> Option<u32>
    ensures { result ≡ model.foreign_in actor ops.now }
{
    for op in ops {
        let OpId(stamp) = op.id;
        if stamp.actor() != actor {
            return Some(stamp.actor());
        }
    }
    None
}

/// The clocks have no gap; then there are fewer updates than the limit.
#[tactic(auto, using(crate::proofs::Clocks::news))]
fn taken<T: Tree>(
    alloc: Global,
    store: &mut Store<T>,
    setting: &Setting,
    draft: &mut Draft,
    conn: u64,
    link: &Link,
    actor: u32,
    msgs: &[ClientMsg],
    ops: &Ops,
) -> Result<(), NoMemory>
    requires group { IsOpen store.old draft.old.group }
    requires session { IsSome (session_of store.old.state.sessions actor) }
    requires shallow { AreShallowOps ops.now }
    requires seated { AreSeated (length store.old.state.sessions) draft.old.links }
    requires sound { AreSoundClientMsgs msgs.now }

    ensures serves { OnOk result (Serves setting.now store.old store.new draft.old draft.new
        (λ v. model.taken v conn link.now actor msgs.now (take v.state actor ops.now))) }
    ensures group { IsOpen store.new draft.new.group }
    ensures seated { OnOk result (AreSeated (length store.new.state.sessions) draft.new.links) }
    ensures keeps { Keeps store.old store.new }
{
    match news_for(&*store, actor, ops) {
        News::Nothing => act_all(alloc, store, setting, draft, conn, actor, ops, false, msgs),
        News::Gap(expected, got) => {
            let text = expected_text(alloc, "clock gap", expected, got)?;
            shut(alloc, draft, conn, link, 4402, text)
        },
        News::RunOn => {
            let count = store.count();
            if count >= store.limits().updates {
                let text = counted_text(alloc, "room full ", count)?;
                return shut(alloc, draft, conn, link, 4406, text);
            }
            act_all(alloc, store, setting, draft, conn, actor, ops, true, msgs)
        },
    }
}

/// No message needs a higher level.
fn permitted<T: Tree>(
    alloc: Global,
    store: &mut Store<T>,
    setting: &Setting,
    draft: &mut Draft,
    conn: u64,
    link: &Link,
    actor: u32,
    msgs: &[ClientMsg],
    ops: &Ops,
) -> Result<(), NoMemory>
    requires group { IsOpen store.old draft.old.group }
    requires session { IsSome (session_of store.old.state.sessions actor) }
    requires shallow { AreShallowOps ops.now }
    requires seated { AreSeated (length store.old.state.sessions) draft.old.links }
    requires sound { AreSoundClientMsgs msgs.now }
    requires ops { ops.now ≡ model.all_ops_in msgs.now }

    ensures serves { OnOk result (Serves setting.now store.old store.new draft.old draft.new
        (λ v. model.permitted v conn link.now actor msgs.now)) }
    ensures group { IsOpen store.new draft.new.group }
    ensures seated { OnOk result (AreSeated (length store.new.state.sessions) draft.new.links) }
    ensures keeps { Keeps store.old store.new }
{
    match barred(link.decision(), msgs) {
        Some(bar) => {
            let text = refusal_text(alloc, &bar)?;
            shut(alloc, draft, conn, link, 4403, text)
        },
        None => taken(alloc, store, setting, draft, conn, link, actor, msgs, ops),
    }
}

/// No operation is of another actor.
#[tactic(auto, using(crate::proofs::Same::all_shallow))]
fn owned<T: Tree>(
    alloc: Global,
    store: &mut Store<T>,
    setting: &Setting,
    draft: &mut Draft,
    conn: u64,
    link: &Link,
    actor: u32,
    msgs: &[ClientMsg],
) -> Result<(), NoMemory>
    requires group { IsOpen store.old draft.old.group }
    requires session { IsSome (session_of store.old.state.sessions actor) }
    requires seated { AreSeated (length store.old.state.sessions) draft.old.links }
    requires sound { AreSoundClientMsgs msgs.now }
    requires shallow { All IsShallowClientMsg msgs.now }

    ensures serves { OnOk result (Serves setting.now store.old store.new draft.old draft.new
        (λ v. model.owned v conn link.now actor msgs.now (model.foreign_in actor (model.all_ops_in msgs.now)))) }
    ensures group { IsOpen store.new draft.new.group }
    ensures seated { OnOk result (AreSeated (length store.new.state.sessions) draft.new.links) }
    ensures keeps { Keeps store.old store.new }
{
    let ops = all_ops(alloc, msgs)?;
    match foreign_in(actor, ops.as_slice()) {
        Some(got) => {
            let text = expected_text(alloc, "foreign actor", u64::from(actor), u64::from(got))?;
            shut(alloc, draft, conn, link, 4404, text)
        },
        None => permitted(alloc, store, setting, draft, conn, link, actor, msgs, &ops),
    }
}

/// A frame of a session.
pub fn session_frame<T: Tree>(
    alloc: Global,
    store: &mut Store<T>,
    setting: &Setting,
    draft: &mut Draft,
    conn: u64,
    link: &Link,
    actor: u32,
    msgs: &[ClientMsg],
) -> Result<(), NoMemory>
    requires group { IsOpen store.old draft.old.group }
    requires session { IsSome (session_of store.old.state.sessions actor) }
    requires seated { AreSeated (length store.old.state.sessions) draft.old.links }
    requires sound { AreSoundClientMsgs msgs.now }
    requires shallow { All IsShallowClientMsg msgs.now }

    ensures serves { OnOk result (Serves setting.now store.old store.new draft.old draft.new
        (λ v. model.session_frame v conn link.now actor msgs.now)) }
    ensures group { IsOpen store.new draft.new.group }
    ensures seated { OnOk result (AreSeated (length store.new.state.sessions) draft.new.links) }
    ensures keeps { Keeps store.old store.new }
{
    if has_hello(msgs) {
        return bad_frame(alloc, draft, conn, link, &Reason::Hello);
    }
    owned(alloc, store, setting, draft, conn, link, actor, msgs)
}
