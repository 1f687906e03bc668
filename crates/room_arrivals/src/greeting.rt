//! A hello: a session begins on a connection, or goes on.
ghost use Rattle.std.specs.Prelude.{◌≡◌, ◌≤◌, ◌++◌, ◌∷◌, [], map, option_map, length};
ghost use Rattle.std.specs.Prelude.{IfOk, IfSome, OnOk, IsSome};
ghost use Rattle.std.specs.Option.{option_copied};
ghost use Rattle.std.specs.FinMap.{remove, entries};
ghost use Rattle.room_msg.specs.declared.messages.ClientMsg.TheVariants as client;
ghost use Rattle.room_access.specs.View.{access_of, decision_of as decided};
ghost use Rattle.room_log.specs.Log.{session_of};
ghost use Rattle.room_links.specs.Outs.{written};
ghost use Rattle.room_model.specs.Server as model;
ghost use Rattle.room_msg.specs.declared.messages.ServerMsg.TheVariants as server;
ghost use Rattle.room_store.specs.Stored.{IsOpen};
ghost use Rattle.room_arrivals.specs.Serving.{Serves, Keeps};
ghost use Rattle.room_arrivals.specs.Seats.{AreSeated, IsKnown};

use crate::closing::{bad_frame, shut};
use crate::draft::{Draft, Setting};
use crate::needs::barred;
use crate::texts::{counted_text, refusal_text};
use crate::users::users;
use room_access::{Decision, decide, group_of};
use room_json::{Copied, NoMemory, Text};
use room_links::{Link, Links, Out, Outs, Sending, Whom};
use room_msg::{ClientMsg, Hello, Reason, Resume, ServerMsg, write_server};
use room_store::Store;
use room_tree::Tree;
use std::alloc::Global;

/// A session's connection gets its room state, and the others are told that it joined.
fn welcome<T: Tree>(
    alloc: Global,
    store: &Store<T>,
    links: &Links,
    outs: &mut Outs,
    conn: u64,
    actor: u32,
    key: u64,
) -> Result<(), NoMemory>
    requires { 1 ≤ actor }
    ensures { OnOk result (outs.new ≡ outs.old ++ map written ((
      conn,
      model.Message (server.RoomState actor key
          (model.users_of store.now.state.sessions (remove links.now conn))),
    )
        ∷ model.to_others links.now conn (server.Joined actor))) }
{
    let users = users(alloc, store, links, conn)?;
    let text = write_server(alloc, &ServerMsg::RoomState { actor, key, users })?;
    outs.push(Out::Send(conn, text))?;
    links.say(alloc, outs, Whom::Others(conn), &ServerMsg::Joined(actor))
}

fn name_in(alloc: Global, hello: &Hello) -> Result<Text, NoMemory>
    ensures { IfOk result (λ t. t ≡ model.name_of hello.now.name) }
{
    match &hello.name {
        Some(name) => name.copy(alloc),
        None => Ok(Text::new(alloc)),
    }
}

/// A new session begins.
#[tactic(auto, using(crate::proofs::Seating::seats))]
fn join<T: Tree>(
    alloc: Global,
    store: &mut Store<T>,
    setting: &Setting,
    draft: &mut Draft,
    conn: u64,
    link: &Link,
    hello: &Hello,
    decision: Option<Decision>,
) -> Result<(), NoMemory>
    requires group { IsOpen store.old draft.old.group }
    requires seated { AreSeated (length store.old.state.sessions) draft.old.links }

    ensures serves { OnOk result (Serves setting.now store.old store.new draft.old draft.new
        (λ v. model.join v conn link.now hello.now (option_map decided decision))) }
    ensures group { IsOpen store.new draft.new.group }
    ensures seated { OnOk result (AreSeated (length store.new.state.sessions) draft.new.links) }
    ensures keeps { Keeps store.old store.new }
{
    let name = name_in(alloc, hello)?;
    let Ok(actor) = store.plan_join(alloc, &mut draft.group, link.key(), &name) else {
        return Err(NoMemory);
    };
    draft.links.set(conn, link.with_session(actor, decision))?;
    let key = link.key();
    welcome(
        alloc,
        &*store,
        &draft.links,
        &mut draft.outs,
        conn,
        actor,
        key,
    )
}

/// Each connection that holds a session is closed, since that goes on elsewhere.
fn close_holders(alloc: Global, links: &Links, outs: &mut Outs, actor: u32) -> Result<(), NoMemory>
    ensures { OnOk result (outs.new ≡ outs.old
        ++ map written (model.to_each (model.holds actor) model.elsewhere (entries links.now))) }
{
    let elsewhere = Sending::Shuts(4408, Text::from_str(alloc, "resumed elsewhere")?);
    links.send(alloc, outs, Whom::Holder(actor), &elsewhere)
}

/// A session goes on: another connection that holds it is closed, and the others aren't told that it left.
#[tactic(auto, using(crate::proofs::Seating::seats))]
fn resume<T: Tree>(
    alloc: Global,
    store: &Store<T>,
    setting: &Setting,
    draft: &mut Draft,
    conn: u64,
    link: &Link,
    resume: Resume,
    decision: Option<Decision>,
) -> Result<(), NoMemory>
    requires seated { AreSeated (length store.now.state.sessions) draft.old.links }
    requires actor { IsSome (session_of store.now.state.sessions resume.actor) }

    ensures serves { OnOk result (Serves setting.now store.now store.now draft.old draft.new
        (λ v. model.resumed v conn link.now resume (option_map decided decision))) }
    ensures seated { OnOk result (AreSeated (length store.now.state.sessions) draft.new.links) }
    ensures group { draft.new.group ≡ draft.old.group }
{
    close_holders(alloc, &draft.links, &mut draft.outs, resume.actor)?;
    draft.links.remove_actor(resume.actor);
    draft
        .links
        .set(conn, link.with_session(resume.actor, decision))?;
    let Resume { actor, key } = resume;
    welcome(
        alloc,
        store,
        &draft.links,
        &mut draft.outs,
        conn,
        actor,
        key,
    )
}

/// A hello that is not refused.
fn admitted<T: Tree>(
    alloc: Global,
    store: &mut Store<T>,
    setting: &Setting,
    draft: &mut Draft,
    conn: u64,
    link: &Link,
    hello: &Hello,
    decision: Option<Decision>,
) -> Result<(), NoMemory>
    requires group { IsOpen store.old draft.old.group }
    requires seated { AreSeated (length store.old.state.sessions) draft.old.links }
    requires actor { IsKnown store.old.state.sessions hello.now.resume }

    ensures serves { OnOk result (Serves setting.now store.old store.new draft.old draft.new
        (λ v. model.admitted v conn link.now hello.now hello.now.resume (option_map decided decision))) }
    ensures group { IsOpen store.new draft.new.group }
    ensures seated { OnOk result (AreSeated (length store.new.state.sessions) draft.new.links) }
    ensures keeps { Keeps store.old store.new }
{
    match hello.resume {
        None => join(alloc, store, setting, draft, conn, link, hello, decision),
        Some(session) => resume(
            alloc, &*store, setting, draft, conn, link, session, decision,
        ),
    }
}

/// A hello needs the level to read.
fn admit<T: Tree>(
    alloc: Global,
    store: &mut Store<T>,
    setting: &Setting,
    draft: &mut Draft,
    conn: u64,
    link: &Link,
    msgs: &[ClientMsg],
    hello: &Hello,
    decision: Option<Decision>,
) -> Result<(), NoMemory>
    requires group { IsOpen store.old draft.old.group }
    requires seated { AreSeated (length store.old.state.sessions) draft.old.links }
    requires actor { IsKnown store.old.state.sessions hello.now.resume }
    requires alone { msgs.now ≡ client.Hello hello.now ∷ [] }

    ensures serves { OnOk result (Serves setting.now store.old store.new draft.old draft.new
        (λ v. model.admit v conn link.now hello.now (option_map decided decision))) }
    ensures group { IsOpen store.new draft.new.group }
    ensures seated { OnOk result (AreSeated (length store.new.state.sessions) draft.new.links) }
    ensures keeps { Keeps store.old store.new }
{
    match barred(decision, msgs) {
        None => admitted(alloc, store, setting, draft, conn, link, hello, decision),
        Some(bar) => {
            let text = refusal_text(alloc, &bar)?;
            shut(alloc, draft, conn, link, 4403, text)
        },
    }
}

/// What is decided of a hello, where access is asked for.
fn decision_of(
    alloc: Global,
    setting: &Setting,
    hello: &Hello,
) -> Result<Option<Decision>, NoMemory>
    ensures { (v : model.Server) → v.room ≡ setting.now.room → IfOk result (λ d. option_map decided d
        ≡ model.decision_of v hello.now (option_map access_of setting.now.access)) }
{
    let Some(access) = &setting.access else {
        return Ok(None);
    };
    let group = group_of(alloc, access, hello.pass.as_ref())?;
    Ok(Some(decide(&access.policy, &setting.room, &group)))
}

/// Whether an actor has a session with that key, and the key isn't 0.
fn has_session<T: Tree>(store: &Store<T>, session: Resume) -> bool
    ensures { result ≡ model.has_key session.key (session_of store.now.state.sessions session.actor) }
{
    match store.key_of(session.actor) {
        Some(key) => key == session.key && session.key != 0,
        None => false,
    }
}

/// A hello to this room: the session that it resumes is there, or there may be one more.
#[tactic(auto, using(crate::proofs::Seating::known))]
fn greet<T: Tree>(
    alloc: Global,
    store: &mut Store<T>,
    setting: &Setting,
    draft: &mut Draft,
    conn: u64,
    link: &Link,
    msgs: &[ClientMsg],
    hello: &Hello,
) -> Result<(), NoMemory>
    requires group { IsOpen store.old draft.old.group }
    requires seated { AreSeated (length store.old.state.sessions) draft.old.links }
    requires alone { msgs.now ≡ client.Hello hello.now ∷ [] }

    ensures serves { OnOk result (Serves setting.now store.old store.new draft.old draft.new
        (λ v. model.greet v conn link.now hello.now hello.now.resume)) }
    ensures group { IsOpen store.new draft.new.group }
    ensures seated { OnOk result (AreSeated (length store.new.state.sessions) draft.new.links) }
    ensures keeps { Keeps store.old store.new }
{
    match hello.resume {
        Some(session) => {
            if !has_session(&*store, session) {
                let text = Text::from_str(alloc, "bad resume")?;
                return shut(alloc, draft, conn, link, 4401, text);
            }
        },
        None => {
            let count = store.sessions();
            if count >= store.limits().sessions {
                let text = counted_text(alloc, "sessions full ", u64::from(count))?;
                return shut(alloc, draft, conn, link, 4406, text);
            }
        },
    }
    let decision = decision_of(alloc, setting, hello)?;
    admit(
        alloc, store, setting, draft, conn, link, msgs, hello, decision,
    )
}

/// Just one hello, and nothing else.
fn only_hello(msgs: &[ClientMsg]) -> Option<&Hello>
    ensures hello { option_copied result ≡ model.only_hello msgs.now }
    ensures alone { IfSome result (λ h. msgs.now ≡ client.Hello h.now ∷ []) }
{
    match msgs {
        [ClientMsg::Hello(hello)] => Some(hello),
        _ => None,
    }
}

/// A frame of a connection without a session.
pub fn greeted<T: Tree>(
    alloc: Global,
    store: &mut Store<T>,
    setting: &Setting,
    draft: &mut Draft,
    conn: u64,
    link: &Link,
    msgs: &[ClientMsg],
) -> Result<(), NoMemory>
    requires group { IsOpen store.old draft.old.group }
    requires seated { AreSeated (length store.old.state.sessions) draft.old.links }

    ensures serves { OnOk result (Serves setting.now store.old store.new draft.old draft.new
        (λ v. model.hello v conn link.now (model.only_hello msgs.now))) }
    ensures group { IsOpen store.new draft.new.group }
    ensures seated { OnOk result (AreSeated (length store.new.state.sessions) draft.new.links) }
    ensures keeps { Keeps store.old store.new }
{
    let Some(hello) = only_hello(msgs) else {
        return bad_frame(alloc, draft, conn, link, &Reason::Hello);
    };
    if hello.room.as_bytes() != setting.room.as_bytes() {
        return bad_frame(alloc, draft, conn, link, &Reason::Room);
    }
    greet(alloc, store, setting, draft, conn, link, msgs, hello)
}
