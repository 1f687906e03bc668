//! A frame that arrives.
ghost use Rattle.std.specs.Prelude.{◌≡◌, ◌++◌, ◌∷◌, [], length, All, OnOk};
ghost use Rattle.room_links.specs.Outs.{written};
ghost use Rattle.room_msg.specs.Frame.{client_frame_in};
ghost use Rattle.room_msg.specs.Sound.{AreSoundClientMsgs, IsShallowClientMsg};
ghost use Rattle.room_model.specs.Server as model;
ghost use Rattle.room_store.specs.Stored.{IsOpen};
ghost use Rattle.room_arrivals.specs.Serving.{Serves, Keeps};
ghost use Rattle.room_arrivals.specs.Seats.{AreSeated, IsSeat};

use crate::closing::bad_frame;
use crate::draft::{Draft, Setting};
use crate::greeting::greeted;
use crate::session::session_frame;
use room_json::{NoMemory, Text};
use room_links::{Link, Out};
use room_msg::{ClientFrame, ClientMsg, MsgFault, read_client};
use room_store::Store;
use room_tree::Tree;
use std::alloc::Global;

/// The messages of a frame, of a connection with or without a session.
#[tactic(auto, using(crate::proofs::Seating::known))]
fn messages<T: Tree>(
    alloc: Global,
    store: &mut Store<T>,
    setting: &Setting,
    draft: &mut Draft,
    conn: u64,
    link: &Link,
    msgs: &[ClientMsg],
) -> Result<(), NoMemory>
    requires group { IsOpen store.old draft.old.group }
    requires seat { IsSeat (length store.old.state.sessions) link.now.actor }
    requires seated { AreSeated (length store.old.state.sessions) draft.old.links }
    requires sound { AreSoundClientMsgs msgs.now }
    requires shallow { All IsShallowClientMsg msgs.now }

    ensures serves { OnOk result (Serves setting.now store.old store.new draft.old draft.new
        (λ v. model.messages v conn link.now msgs.now link.now.actor)) }
    ensures group { IsOpen store.new draft.new.group }
    ensures seated { OnOk result (AreSeated (length store.new.state.sessions) draft.new.links) }
    ensures keeps { Keeps store.old store.new }
{
    match link.actor() {
        None => greeted(alloc, store, setting, draft, conn, link, msgs),
        Some(actor) => session_frame(alloc, store, setting, draft, conn, link, actor, msgs),
    }
}

fn pong(alloc: Global, draft: &mut Draft, conn: u64) -> Result<(), NoMemory>
    ensures outs { OnOk result (draft.new.outs ≡ draft.old.outs ++ written (conn, model.Pong) ∷ []) }
    ensures links { draft.new.links ≡ draft.old.links }
    ensures group { draft.new.group ≡ draft.old.group }
{
    let text = Text::from_str(alloc, "pong")?;
    draft.outs.push(Out::Send(conn, text))
}

/// A frame of an attached connection.
fn frame_of<T: Tree>(
    alloc: Global,
    store: &mut Store<T>,
    setting: &Setting,
    draft: &mut Draft,
    conn: u64,
    link: &Link,
    text: &Text,
) -> Result<(), NoMemory>
    requires group { IsOpen store.old draft.old.group }
    requires seat { IsSeat (length store.old.state.sessions) link.now.actor }
    requires seated { AreSeated (length store.old.state.sessions) draft.old.links }

    ensures serves { OnOk result (Serves setting.now store.old store.new draft.old draft.new
        (λ v. model.frame_at v conn link.now (client_frame_in text.now))) }
    ensures group { IsOpen store.new draft.new.group }
    ensures seated { OnOk result (AreSeated (length store.new.state.sessions) draft.new.links) }
    ensures keeps { Keeps store.old store.new }
{
    match read_client(alloc, text) {
        Ok(ClientFrame::Ping) => pong(alloc, draft, conn),
        Ok(ClientFrame::Msgs(msgs)) => messages(
            alloc,
            store,
            setting,
            draft,
            conn,
            link,
            msgs.as_slice(),
        ),
        Err(MsgFault::Bad(reason)) => bad_frame(alloc, draft, conn, link, &reason),
        Err(MsgFault::Memory) => Err(NoMemory),
    }
}

/// A frame of a connection; of one that isn't attached it is passed over. What is to be kept is planned into the open
/// group.
///
/// After an Err the state on the disk and the room's state before the group are as they were; the draft is of no use.
#[tactic(auto, using(crate::proofs::Seating::known))]
pub fn arrive<T: Tree>(
    alloc: Global,
    store: &mut Store<T>,
    setting: &Setting,
    draft: &mut Draft,
    conn: u64,
    text: &Text,
) -> Result<(), NoMemory>
    requires group { IsOpen store.old draft.old.group }
    requires seated { AreSeated (length store.old.state.sessions) draft.old.links }

    // The server after it, what goes out, and its entry are the model's.
    ensures serves { OnOk result (Serves setting.now store.old store.new draft.old draft.new
        (λ v. model.serve v conn (client_frame_in text.now))) }
    ensures group { IsOpen store.new draft.new.group }
    ensures seated { OnOk result (AreSeated (length store.new.state.sessions) draft.new.links) }
    ensures keeps { Keeps store.old store.new }
{
    let Some(link) = draft.links.get(conn) else {
        return Ok(());
    };
    let link = link.same();
    frame_of(alloc, store, setting, draft, conn, &link, text)
}
