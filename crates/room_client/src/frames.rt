//! The texts of a client's frames.
ghost use Rattle.std.specs.Prelude.{◌≡◌, ◌++◌, ◌∷◌, [], map, Some, None, IfOk, OnOk, OnErr};
ghost use Rattle.room_msg.specs.Laws.{IsResumable, IsSendable};
ghost use Rattle.room_msg.specs.Written.{client_text};
ghost use Rattle.room_model.specs.Account.{frame_of_ops, frame_of_patch, frame_of_full, frame_of_full_to};
ghost use Rattle.room_model.specs.Account.{frame_of_event, frame_of_fetch};
ghost use Rattle.room_client.specs.Client.{hello_to};

use room_json::{Copied, Json, Members, NoMemory, Seq, Text};
use room_msg::{ClientMsg, Hello, Resume, write_client};
use room_nodes::{Op, Ops};
use std::alloc::Global;

/// Texts of frames, in the order in which they are sent.
pub type Frames = Seq<Text>;

/// The text of a frame with one message.
fn frame_of(alloc: Global, msg: ClientMsg) -> Result<Text, NoMemory>
    requires { IsSendable msg }
    ensures { IfOk result (λ t. t ≡ client_text (msg ∷ [])) }
{
    let mut msgs = Seq::new(alloc);
    msgs.push(msg)?;
    write_client(alloc, &msgs)
}

fn copy_ops(alloc: Global, ops: &[Op]) -> Result<Ops, NoMemory>
    ensures { IfOk result (λ os. os ≡ ops.now) }
{
    let mut copies = Seq::new(alloc);
    for op in ops {
        copies.push(op.copy(alloc)?)?;
    }
    Ok(copies)
}

/// Operations.
pub(crate) fn of_ops(alloc: Global, ops: &[Op]) -> Result<Text, NoMemory>
    ensures { IfOk result (λ t. t ≡ client_text (frame_of_ops ops.now)) }
{
    frame_of(alloc, ClientMsg::Update(copy_ops(alloc, ops)?))
}

/// A patch of the own presence.
pub(crate) fn of_patch(alloc: Global, patch: Members) -> Result<Text, NoMemory>
    ensures { IfOk result (λ t. t ≡ client_text (frame_of_patch patch)) }
{
    frame_of(
        alloc,
        ClientMsg::Presence {
            target: None,
            patch,
        },
    )
}

/// The whole presence to all others.
pub(crate) fn of_full(alloc: Global, me: &Members) -> Result<Text, NoMemory>
    ensures { IfOk result (λ t. t ≡ client_text (frame_of_full me.now)) }
{
    frame_of(
        alloc,
        ClientMsg::Presence {
            target: Some(-1),
            patch: me.copy(alloc)?,
        },
    )
}

/// The whole presence to one other.
pub(crate) fn of_full_to(alloc: Global, actor: u32, me: &Members) -> Result<Text, NoMemory>
    ensures { IfOk result (λ t. t ≡ client_text (frame_of_full_to actor me.now)) }
{
    frame_of(
        alloc,
        ClientMsg::Presence {
            target: Some(i64::from(actor)),
            patch: me.copy(alloc)?,
        },
    )
}

/// An event.
pub(crate) fn of_event(alloc: Global, event: &Json) -> Result<Text, NoMemory>
    ensures { IfOk result (λ t. t ≡ client_text (frame_of_event event.now)) }
{
    frame_of(alloc, ClientMsg::Broadcast(event.copy(alloc)?))
}

/// That the state is asked for.
pub(crate) fn of_fetch(alloc: Global) -> Result<Text, NoMemory>
    ensures { IfOk result (λ t. t ≡ client_text frame_of_fetch) }
{
    frame_of(alloc, ClientMsg::Fetch)
}

/// A hello, that resumes a session.
pub(crate) fn of_hello(alloc: Global, room: &Text, resume: Option<Resume>) -> Result<Text, NoMemory>
    requires { IsResumable resume }
    ensures { IfOk result (λ t. t ≡ client_text (hello_to room.now resume)) }
{
    frame_of(
        alloc,
        ClientMsg::Hello(Hello {
            room: room.copy(alloc)?,
            resume,
            name: None,
            pass: None,
        }),
    )
}

/// Appends a frame for each event.
pub(crate) fn put_events(
    alloc: Global,
    frames: &mut Frames,
    events: &[Json],
) -> Result<(), NoMemory>
    ensures { OnOk result (frames.new ≡ frames.old ++ map client_text (map frame_of_event events.now)) }
{
    for event in events {
        frames.push(of_event(alloc, event)?)?;
    }
    Ok(())
}
