//! The messages of a client as they are read.
ghost use Rattle.std.specs.Prelude.{◌≡◌, map, IfOk, IfErr, Ok};
ghost use Rattle.room_json.specs.Fields.{each_in};
ghost use Rattle.room_json.specs.View.{json_of};
ghost use Rattle.room_msg.specs.Msg.{op_at, ops_at, hello_in, presence_in, broadcast_in, update_in, client_in};
ghost use Rattle.room_msg.specs.Msg.{IsFaultOf};

use crate::codes::ClientCode;
use crate::fields::{
    client_code_at, json_at, list_at, maybe_text_at, members_at, name_at, resume_at, target_at,
    text_at, wrong,
};
use crate::messages::{ClientMsg, ClientMsgs, Hello};
use crate::reason::MsgFault;
use room_json::Json;
use room_nodes::{Op, Ops};
use room_wire::WireFault;
use std::alloc::Global;

fn read_op(alloc: Global, v: &Json) -> Result<Op, MsgFault>
    ensures ok { IfOk result (λ op. op_at (json_of v.now) ≡ Ok op) }
    ensures err { IfErr result (IsFaultOf (op_at (json_of v.now))) }
{
    match room_wire::read_op(alloc, v) {
        Ok(op) => Ok(op),
        Err(WireFault::Memory) => Err(MsgFault::Memory),
        Err(WireFault::BadOp(part)) => Err(wrong(alloc, part.name())?),
    }
}

fn read_ops(alloc: Global, values: &[Json]) -> Result<Ops, MsgFault>
    ensures ok { IfOk result (λ ops. each_in op_at (map json_of values.now) ≡ Ok ops) }
    ensures err { IfErr result (IsFaultOf (each_in op_at (map json_of values.now))) }
{
    let mut ops = Ops::new(alloc);
    for value in values {
        let op = read_op(alloc, value)?;
        ops.push(op)?;
    }
    Ok(ops)
}

pub(crate) fn read_ops_at(alloc: Global, v: &Json) -> Result<Ops, MsgFault>
    ensures ok { IfOk result (λ ops. ops_at (json_of v.now) ≡ Ok ops) }
    ensures err { IfErr result (IsFaultOf (ops_at (json_of v.now))) }
{
    let values = list_at(alloc, v, "ops")?;
    let ops = read_ops(alloc, values.as_slice())?;
    Ok(ops)
}

fn read_hello(alloc: Global, v: &Json) -> Result<ClientMsg, MsgFault>
    ensures ok { IfOk result (λ m. hello_in (json_of v.now) ≡ Ok m) }
    ensures err { IfErr result (IsFaultOf (hello_in (json_of v.now))) }
{
    let room = text_at(alloc, v, "room")?;
    let resume = resume_at(alloc, v, "resume")?;
    let name = name_at(alloc, v, "name")?;
    let pass = maybe_text_at(alloc, v, "pass")?;
    Ok(ClientMsg::Hello(Hello {
        room,
        resume,
        name,
        pass,
    }))
}

fn read_presence(alloc: Global, v: &Json) -> Result<ClientMsg, MsgFault>
    ensures ok { IfOk result (λ m. presence_in (json_of v.now) ≡ Ok m) }
    ensures err { IfErr result (IsFaultOf (presence_in (json_of v.now))) }
{
    let patch = members_at(alloc, v, "data")?;
    let target = target_at(alloc, v, "targetActor")?;
    Ok(ClientMsg::Presence { target, patch })
}

#[tactic(auto, using(room_json::proofs::Again::json_again))]
fn read_broadcast(alloc: Global, v: &Json) -> Result<ClientMsg, MsgFault>
    ensures ok { IfOk result (λ m. broadcast_in (json_of v.now) ≡ Ok m) }
    ensures err { IfErr result (IsFaultOf (broadcast_in (json_of v.now))) }
{
    Ok(ClientMsg::Broadcast(json_at(alloc, v, "event")?))
}

fn read_update(alloc: Global, v: &Json) -> Result<ClientMsg, MsgFault>
    ensures ok { IfOk result (λ m. update_in (json_of v.now) ≡ Ok m) }
    ensures err { IfErr result (IsFaultOf (update_in (json_of v.now))) }
{
    let ops = read_ops_at(alloc, v)?;
    Ok(ClientMsg::Update(ops))
}

fn read_msg(alloc: Global, v: &Json) -> Result<ClientMsg, MsgFault>
    ensures ok { IfOk result (λ m. client_in (json_of v.now) ≡ Ok m) }
    ensures err { IfErr result (IsFaultOf (client_in (json_of v.now))) }
{
    match client_code_at(v, "type")? {
        ClientCode::Hello => read_hello(alloc, v),
        ClientCode::Presence => read_presence(alloc, v),
        ClientCode::Broadcast => read_broadcast(alloc, v),
        ClientCode::Fetch => Ok(ClientMsg::Fetch),
        ClientCode::Update => read_update(alloc, v),
    }
}

pub(crate) fn read_msgs(alloc: Global, values: &[Json]) -> Result<ClientMsgs, MsgFault>
    ensures ok { IfOk result (λ ms. each_in client_in (map json_of values.now) ≡ Ok ms) }
    ensures err { IfErr result (IsFaultOf (each_in client_in (map json_of values.now))) }
{
    let mut msgs = ClientMsgs::new(alloc);
    for value in values {
        let msg = read_msg(alloc, value)?;
        msgs.push(msg)?;
    }
    Ok(msgs)
}
