//! The messages of the server as they are read.
ghost use Rattle.std.specs.Prelude.{◌≡◌, map, IfOk, IfErr, Ok, [], ◌∷◌};
ghost use Rattle.room_json.specs.Fields.{each_in};
ghost use Rattle.room_json.specs.View.{json_of};
ghost use Rattle.room_msg.specs.Msg.{seen_in, joined_in, left_in, heard_in, room_in, state_in, updated_in, server_in};
ghost use Rattle.room_msg.specs.Msg.{server_msgs_in, IsFaultOf};

use crate::codes::ServerCode;
use crate::fields::{
    actor_at, count_at, flag_at, json_at, key_at, list_at, maker_at, members_at, server_code_at,
    target_at,
};
use crate::messages::{ServerMsg, ServerMsgs};
use crate::reading::read_ops_at;
use crate::reason::{MsgFault, Reason};
use crate::roster::users_at;
use room_json::{Copied, Json, NoMemory};
use std::alloc::Global;

fn read_seen(alloc: Global, v: &Json) -> Result<ServerMsg, MsgFault>
    ensures ok { IfOk result (λ m. seen_in (json_of v.now) ≡ Ok m) }
    ensures err { IfErr result (IsFaultOf (seen_in (json_of v.now))) }
{
    let actor = actor_at(alloc, v, "actor")?;
    let patch = members_at(alloc, v, "data")?;
    let target = target_at(alloc, v, "targetActor")?;
    Ok(ServerMsg::Presence {
        actor,
        target,
        patch,
    })
}

fn read_joined(alloc: Global, v: &Json) -> Result<ServerMsg, MsgFault>
    ensures ok { IfOk result (λ m. joined_in (json_of v.now) ≡ Ok m) }
    ensures err { IfErr result (IsFaultOf (joined_in (json_of v.now))) }
{
    Ok(ServerMsg::Joined(actor_at(alloc, v, "actor")?))
}

fn read_left(alloc: Global, v: &Json) -> Result<ServerMsg, MsgFault>
    ensures ok { IfOk result (λ m. left_in (json_of v.now) ≡ Ok m) }
    ensures err { IfErr result (IsFaultOf (left_in (json_of v.now))) }
{
    Ok(ServerMsg::Left(actor_at(alloc, v, "actor")?))
}

#[tactic(auto, using(room_json::proofs::Again::json_again))]
fn read_heard(alloc: Global, v: &Json) -> Result<ServerMsg, MsgFault>
    ensures ok { IfOk result (λ m. heard_in (json_of v.now) ≡ Ok m) }
    ensures err { IfErr result (IsFaultOf (heard_in (json_of v.now))) }
{
    let actor = actor_at(alloc, v, "actor")?;
    let event = json_at(alloc, v, "event")?;
    Ok(ServerMsg::Broadcast { actor, event })
}

fn read_room(alloc: Global, v: &Json) -> Result<ServerMsg, MsgFault>
    ensures ok { IfOk result (λ m. room_in (json_of v.now) ≡ Ok m) }
    ensures err { IfErr result (IsFaultOf (room_in (json_of v.now))) }
{
    let actor = maker_at(alloc, v, "actor")?;
    let key = key_at(alloc, v, "key")?;
    let users = users_at(alloc, v, "users")?;
    Ok(ServerMsg::RoomState { actor, key, users })
}

fn read_state(alloc: Global, v: &Json) -> Result<ServerMsg, MsgFault>
    ensures ok { IfOk result (λ m. state_in (json_of v.now) ≡ Ok m) }
    ensures err { IfErr result (IsFaultOf (state_in (json_of v.now))) }
{
    let seq = count_at(alloc, v, "seq")?;
    let last = count_at(alloc, v, "last")?;
    let items = list_at(alloc, v, "items")?;
    let more = flag_at(alloc, v, "more")?.unwrap_or(false);
    Ok(ServerMsg::State {
        seq,
        last,
        items: items.copy(alloc)?,
        more,
    })
}

fn read_updated(alloc: Global, v: &Json) -> Result<ServerMsg, MsgFault>
    ensures ok { IfOk result (λ m. updated_in (json_of v.now) ≡ Ok m) }
    ensures err { IfErr result (IsFaultOf (updated_in (json_of v.now))) }
{
    let seq = count_at(alloc, v, "seq")?;
    let ops = read_ops_at(alloc, v)?;
    Ok(ServerMsg::Update { seq, ops })
}

fn read_msg(alloc: Global, v: &Json) -> Result<ServerMsg, MsgFault>
    ensures ok { IfOk result (λ m. server_in (json_of v.now) ≡ Ok m) }
    ensures err { IfErr result (IsFaultOf (server_in (json_of v.now))) }
{
    match server_code_at(v, "type")? {
        ServerCode::Presence => read_seen(alloc, v),
        ServerCode::Joined => read_joined(alloc, v),
        ServerCode::Left => read_left(alloc, v),
        ServerCode::Broadcast => read_heard(alloc, v),
        ServerCode::RoomState => read_room(alloc, v),
        ServerCode::State => read_state(alloc, v),
        ServerCode::Update => read_updated(alloc, v),
    }
}

fn read_list(alloc: Global, values: &[Json]) -> Result<ServerMsgs, MsgFault>
    ensures ok { IfOk result (λ ms. each_in server_in (map json_of values.now) ≡ Ok ms) }
    ensures err { IfErr result (IsFaultOf (each_in server_in (map json_of values.now))) }
{
    let mut msgs = ServerMsgs::new(alloc);
    for value in values {
        let msg = read_msg(alloc, value)?;
        msgs.push(msg)?;
    }
    Ok(msgs)
}

fn one(alloc: Global, msg: ServerMsg) -> Result<ServerMsgs, NoMemory>
    ensures { IfOk result (λ ms. ms ≡ msg ∷ []) }
{
    let mut msgs = ServerMsgs::new(alloc);
    msgs.push(msg)?;
    Ok(msgs)
}

#[tactic(auto, using(room_json::proofs::Values::list_laws))]
pub(crate) fn read_server_msgs(alloc: Global, v: &Json) -> Result<ServerMsgs, MsgFault>
    ensures ok { IfOk result (λ ms. server_msgs_in (json_of v.now) ≡ Ok ms) }
    ensures err { IfErr result (IsFaultOf (server_msgs_in (json_of v.now))) }
{
    match v {
        Json::Object(_) => Ok(one(alloc, read_msg(alloc, v)?)?),
        Json::List(items) => read_list(alloc, items.as_slice()),
        _ => Err(MsgFault::Bad(Reason::List)),
    }
}
