//! A client's frame as it is written.
ghost use Rattle.std.specs.Prelude.{◌≡◌, ◌≤◌, [], IfOk, OnOk, All, map, Ok};
ghost use Rattle.room_json.specs.Fields.{each_in};
ghost use Rattle.room_json.specs.Value.{merged};
ghost use Rattle.room_json.specs.View.{json_of};
ghost use Rattle.room_wire.specs.Written.{op_out};
ghost use Rattle.room_msg.specs.Laws.{IsSendable, IsTarget, IsResume, AreOpsKnown, IsClientAgain, IsClientFrame};
ghost use Rattle.room_msg.specs.Msg.{client_in};
ghost use Rattle.room_msg.specs.Written.{type_out, number_out, target_out, data_out, ops_out, resume_out, resume_value};
ghost use Rattle.room_msg.specs.Written.{text_out, client_out, client_text};

use crate::keys::write_key;
use crate::messages::{ClientMsg, ClientMsgs, Hello, Resume};
use room_json::{
    Copied, Items, Json, Members, NoMemory, Text, Whole, put, whole, whole_u64, write,
};
use room_nodes::{Op, Ops};
use room_wire::write_op;
use std::alloc::Global;

/// The members of a message that has nothing but its `type` yet.
pub(crate) fn start(alloc: Global, code: u32) -> Result<Members, NoMemory>
    ensures { IfOk result (λ m. m ≡ merged [] (type_out code)) }
{
    let mut members = Members::new(alloc);
    put(alloc, &mut members, "type", Json::Int(whole(code)))?;
    Ok(members)
}

pub(crate) fn put_number(
    alloc: Global,
    members: &mut Members,
    name: &str,
    number: u64,
) -> Result<(), NoMemory>
    requires { number ≤ 9007199254740991 }
    ensures { OnOk result (members.new ≡ merged members.old (number_out name.now number)) }
{
    put(alloc, members, name, Json::Int(whole_u64(number)))
}

pub(crate) fn put_data(
    alloc: Global,
    members: &mut Members,
    patch: &Members,
) -> Result<(), NoMemory>
    ensures { OnOk result (members.new ≡ merged members.old (data_out patch.now)) }
{
    put(alloc, members, "data", Json::Object(patch.copy(alloc)?))
}

pub(crate) fn put_target(
    alloc: Global,
    members: &mut Members,
    target: Option<i64>,
) -> Result<(), NoMemory>
    requires { IsTarget target }
    ensures { OnOk result (members.new ≡ merged members.old (target_out target)) }
{
    match target {
        None => Ok(()),
        Some(target) => match Whole::new(target) {
            Some(target) => put(alloc, members, "targetActor", Json::Int(target)),
            None => unreachable!(),
        },
    }
}

#[tactic(auto, using(crate::proofs::Reread::known_more))]
fn write_ops(alloc: Global, ops: &[Op]) -> Result<Items, NoMemory>
    ensures value { IfOk result (λ vs. vs ≡ map op_out ops.now) }
    ensures known { IfOk result (λ vs. AreOpsKnown ops.now) }
{
    let mut items = Items::new(alloc);
    for op in ops {
        items.push(write_op(alloc, op)?)?;
    }
    Ok(items)
}

pub(crate) fn put_ops(alloc: Global, members: &mut Members, ops: &Ops) -> Result<(), NoMemory>
    ensures value { OnOk result (members.new ≡ merged members.old (ops_out ops.now)) }
    ensures known { OnOk result (AreOpsKnown ops.now) }
{
    let items = write_ops(alloc, ops.as_slice())?;
    put(alloc, members, "ops", Json::List(items))
}

fn write_resume(alloc: Global, actor: u32, key: u64) -> Result<Json, NoMemory>
    ensures { IfOk result (λ v. json_of v ≡ resume_value (record { actor = actor; key = key })) }
{
    let mut members = Members::new(alloc);
    put(alloc, &mut members, "actor", Json::Int(whole(actor)))?;
    put(
        alloc,
        &mut members,
        "key",
        Json::Text(write_key(alloc, key)?),
    )?;
    Ok(Json::Object(members))
}

fn put_resume(alloc: Global, members: &mut Members, resume: Option<Resume>) -> Result<(), NoMemory>
    ensures value { OnOk result (members.new ≡ merged members.old (resume_out resume)) }
    ensures known { OnOk result (IsResume resume) }
{
    match resume {
        None => Ok(()),
        Some(Resume { actor, key }) => {
            let value = write_resume(alloc, actor, key)?;
            put(alloc, members, "resume", value)
        }
    }
}

fn put_text(
    alloc: Global,
    members: &mut Members,
    name: &str,
    text: &Option<Text>,
) -> Result<(), NoMemory>
    ensures { OnOk result (members.new ≡ merged members.old (text_out name.now text.now)) }
{
    match text {
        None => Ok(()),
        Some(text) => put(alloc, members, name, Json::Text(text.copy(alloc)?)),
    }
}

#[tactic(auto, using(crate::proofs::Reread::hello_again))]
fn write_hello(alloc: Global, hello: &Hello) -> Result<Json, NoMemory>
    requires { IsSendable (ClientMsg.Hello hello.now) }
    ensures value { IfOk result (λ v. json_of v ≡ client_out (ClientMsg.Hello hello.now)) }
    ensures again { IfOk result (λ v. IsClientAgain (ClientMsg.Hello hello.now)) }
{
    let mut members = start(alloc, 1)?;
    put(
        alloc,
        &mut members,
        "room",
        Json::Text(hello.room.copy(alloc)?),
    )?;
    put_resume(alloc, &mut members, hello.resume)?;
    put_text(alloc, &mut members, "name", &hello.name)?;
    put_text(alloc, &mut members, "pass", &hello.pass)?;
    Ok(Json::Object(members))
}

#[tactic(auto, using(crate::proofs::Reread::presence_again))]
fn write_presence(alloc: Global, target: Option<i64>, patch: &Members) -> Result<Json, NoMemory>
    requires { IsTarget target }
    ensures value { IfOk result (λ v. json_of v ≡ client_out (ClientMsg.Presence target patch.now)) }
    ensures again { IfOk result (λ v. IsClientAgain (ClientMsg.Presence target patch.now)) }
{
    let mut members = start(alloc, 100)?;
    put_data(alloc, &mut members, patch)?;
    put_target(alloc, &mut members, target)?;
    Ok(Json::Object(members))
}

#[tactic(auto, using(crate::proofs::Reread::broadcast_again))]
fn write_broadcast(alloc: Global, event: &Json) -> Result<Json, NoMemory>
    ensures value { IfOk result (λ v. json_of v ≡ client_out (ClientMsg.Broadcast event.now)) }
    ensures again { IfOk result (λ v. IsClientAgain (ClientMsg.Broadcast event.now)) }
{
    let mut members = start(alloc, 103)?;
    put(alloc, &mut members, "event", event.copy(alloc)?)?;
    Ok(Json::Object(members))
}

fn write_fetch(alloc: Global) -> Result<Json, NoMemory>
    ensures value { IfOk result (λ v. json_of v ≡ client_out ClientMsg.Fetch) }
    ensures again { IfOk result (λ v. IsClientAgain ClientMsg.Fetch) }
{
    let members = start(alloc, 200)?;
    Ok(Json::Object(members))
}

#[tactic(auto, using(crate::proofs::Reread::update_again))]
fn write_update(alloc: Global, ops: &Ops) -> Result<Json, NoMemory>
    ensures value { IfOk result (λ v. json_of v ≡ client_out (ClientMsg.Update ops.now)) }
    ensures again { IfOk result (λ v. IsClientAgain (ClientMsg.Update ops.now)) }
{
    let mut members = start(alloc, 201)?;
    put_ops(alloc, &mut members, ops)?;
    Ok(Json::Object(members))
}

fn write_msg(alloc: Global, msg: &ClientMsg) -> Result<Json, NoMemory>
    requires { IsSendable msg.now }
    ensures value { IfOk result (λ v. json_of v ≡ client_out msg.now) }
    ensures again { IfOk result (λ v. IsClientAgain msg.now) }
{
    match msg {
        ClientMsg::Hello(hello) => write_hello(alloc, hello),
        ClientMsg::Presence { target, patch } => write_presence(alloc, *target, patch),
        ClientMsg::Broadcast(event) => write_broadcast(alloc, event),
        ClientMsg::Fetch => write_fetch(alloc),
        ClientMsg::Update(ops) => write_update(alloc, ops),
    }
}

#[tactic(auto, using(crate::proofs::Reread::msgs_more))]
fn write_msgs(alloc: Global, msgs: &[ClientMsg]) -> Result<Items, NoMemory>
    requires { All IsSendable msgs.now }
    ensures value { IfOk result (λ vs. vs ≡ map client_out msgs.now) }
    ensures again { IfOk result (λ vs. each_in client_in (map client_out msgs.now) ≡ Ok msgs.now) }
{
    let mut items = Items::new(alloc);
    for msg in msgs {
        items.push(write_msg(alloc, msg)?)?;
    }
    Ok(items)
}

/// The text of a client's frame. Within the limits of frames it is read again as these messages.
///
/// Asks for a target from -1 to 4294967295, a resumed actor from 1 on, and a name of at most 64 bytes. Copies the
/// messages' texts and data. Fails only where memory runs out.
pub fn write_client(alloc: Global, msgs: &ClientMsgs) -> Result<Text, NoMemory>
    requires { All IsSendable msgs.now }
    ensures text { IfOk result (λ t. t ≡ client_text msgs.now) }
    ensures again { IfOk result (IsClientFrame msgs.now) }
{
    let items = write_msgs(alloc, msgs.as_slice())?;
    let text = write(alloc, &Json::List(items))?;
    Ok(text)
}
