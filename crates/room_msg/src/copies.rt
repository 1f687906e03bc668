//! Copies of messages.
ghost use Rattle.std.specs.Prelude.{◌≡◌, IfOk};

use crate::messages::{ClientFrame, ClientMsg, Hello, ServerFrame, ServerMsg};
use crate::reason::Reason;
use crate::users::Users;
use room_json::{Copied, NoMemory, Text};
use std::alloc::Global;

fn copy_maybe(alloc: Global, text: &Option<Text>) -> Result<Option<Text>, NoMemory>
    ensures { IfOk result (λ t. t ≡ text.now) }
{
    match text {
        Some(text) => Ok(Some(text.copy(alloc)?)),
        None => Ok(None),
    }
}

impl Copied for Hello {
    fn copy(&self, alloc: Global) -> Result<Hello, NoMemory> {
        Ok(Hello {
            room: self.room.copy(alloc)?,
            resume: self.resume,
            name: copy_maybe(alloc, &self.name)?,
            pass: copy_maybe(alloc, &self.pass)?,
        })
    }
}

impl Copied for ClientMsg {
    fn copy(&self, alloc: Global) -> Result<ClientMsg, NoMemory> {
        match self {
            ClientMsg::Hello(hello) => Ok(ClientMsg::Hello(hello.copy(alloc)?)),
            ClientMsg::Presence { target, patch } => Ok(ClientMsg::Presence {
                target: *target,
                patch: patch.copy(alloc)?,
            }),
            ClientMsg::Broadcast(event) => Ok(ClientMsg::Broadcast(event.copy(alloc)?)),
            ClientMsg::Fetch => Ok(ClientMsg::Fetch),
            ClientMsg::Update(ops) => Ok(ClientMsg::Update(ops.copy(alloc)?)),
        }
    }
}

fn copy_pairs(alloc: Global, pairs: &[(u32, Text)]) -> Result<Users, NoMemory>
    ensures { IfOk result (λ u. u ≡ pairs.now) }
{
    let mut users = Users::new(alloc);
    for pair in pairs {
        let name = pair.1.copy(alloc)?;
        users.push(pair.0, name)?;
    }
    Ok(users)
}

impl Copied for Users {
    fn copy(&self, alloc: Global) -> Result<Users, NoMemory> {
        copy_pairs(alloc, self.as_slice())
    }
}

impl Copied for ServerMsg {
    fn copy(&self, alloc: Global) -> Result<ServerMsg, NoMemory> {
        match self {
            ServerMsg::Presence {
                actor,
                target,
                patch,
            } => Ok(ServerMsg::Presence {
                actor: *actor,
                target: *target,
                patch: patch.copy(alloc)?,
            }),
            ServerMsg::Joined(actor) => Ok(ServerMsg::Joined(*actor)),
            ServerMsg::Left(actor) => Ok(ServerMsg::Left(*actor)),
            ServerMsg::Broadcast { actor, event } => Ok(ServerMsg::Broadcast {
                actor: *actor,
                event: event.copy(alloc)?,
            }),
            ServerMsg::RoomState { actor, key, users } => Ok(ServerMsg::RoomState {
                actor: *actor,
                key: *key,
                users: users.copy(alloc)?,
            }),
            ServerMsg::State {
                seq,
                last,
                items,
                more,
            } => Ok(ServerMsg::State {
                seq: *seq,
                last: *last,
                items: items.copy(alloc)?,
                more: *more,
            }),
            ServerMsg::Update { seq, ops } => Ok(ServerMsg::Update {
                seq: *seq,
                ops: ops.copy(alloc)?,
            }),
        }
    }
}

impl Copied for ClientFrame {
    fn copy(&self, alloc: Global) -> Result<ClientFrame, NoMemory> {
        match self {
            ClientFrame::Ping => Ok(ClientFrame::Ping),
            ClientFrame::Msgs(msgs) => Ok(ClientFrame::Msgs(msgs.copy(alloc)?)),
        }
    }
}

impl Copied for ServerFrame {
    fn copy(&self, alloc: Global) -> Result<ServerFrame, NoMemory> {
        match self {
            ServerFrame::Pong => Ok(ServerFrame::Pong),
            ServerFrame::Msgs(msgs) => Ok(ServerFrame::Msgs(msgs.copy(alloc)?)),
        }
    }
}

impl Copied for Reason {
    fn copy(&self, alloc: Global) -> Result<Reason, NoMemory> {
        match self {
            Reason::Size => Ok(Reason::Size),
            Reason::Json => Ok(Reason::Json),
            Reason::Depth => Ok(Reason::Depth),
            Reason::Number => Ok(Reason::Number),
            Reason::List => Ok(Reason::List),
            Reason::Kind => Ok(Reason::Kind),
            Reason::Field(name) => Ok(Reason::Field(name.copy(alloc)?)),
            Reason::Hello => Ok(Reason::Hello),
            Reason::Room => Ok(Reason::Room),
        }
    }
}
