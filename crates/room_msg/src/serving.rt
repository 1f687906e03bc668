//! A server's frame as it is written.
ghost use Rattle.std.specs.Prelude.{◌≡◌, [], ◌∷◌, IfOk, OnOk, map, codes};
ghost use Rattle.room_json.specs.Value.{merged};
ghost use Rattle.room_json.specs.View.{json_of};
ghost use Rattle.room_msg.specs.Laws.{IsServed, IsTarget, AreActors, IsServerAgain, IsServerFrame};
ghost use Rattle.room_msg.specs.Written.{type_out, number_out, user_value, user_out, more_out, server_out, server_text};

use crate::keys::write_key;
use crate::messages::ServerMsg;
use crate::sending::{put_data, put_number, put_ops, put_target, start};
use crate::users::Users;
use room_ids::push_number;
use room_json::{Copied, Items, Json, Members, NoMemory, Text, put, write};
use room_nodes::Ops;
use std::alloc::Global;

/// The members of a message of an actor that has nothing else yet.
fn start_of(alloc: Global, code: u32, actor: u32) -> Result<Members, NoMemory>
    ensures { IfOk result (λ m. m ≡ merged (merged [] (type_out code)) (number_out (codes "actor") actor)) }
{
    let mut members = start(alloc, code)?;
    put_number(alloc, &mut members, "actor", u64::from(actor))?;
    Ok(members)
}

#[tactic(auto, using(crate::proofs::Reread::seen_again))]
fn write_seen(
    alloc: Global,
    actor: u32,
    target: Option<i64>,
    patch: &Members,
) -> Result<Json, NoMemory>
    requires { IsTarget target }
    ensures value { IfOk result (λ v. json_of v ≡ server_out (ServerMsg.Presence actor target patch.now)) }
    ensures again { IfOk result (λ v. IsServerAgain (ServerMsg.Presence actor target patch.now)) }
{
    let mut members = start_of(alloc, 100, actor)?;
    put_data(alloc, &mut members, patch)?;
    put_target(alloc, &mut members, target)?;
    Ok(Json::Object(members))
}

#[tactic(auto, using(crate::proofs::Reread::joined_again))]
fn write_joined(alloc: Global, actor: u32) -> Result<Json, NoMemory>
    ensures value { IfOk result (λ v. json_of v ≡ server_out (ServerMsg.Joined actor)) }
    ensures again { IfOk result (λ v. IsServerAgain (ServerMsg.Joined actor)) }
{
    let members = start_of(alloc, 101, actor)?;
    Ok(Json::Object(members))
}

#[tactic(auto, using(crate::proofs::Reread::left_again))]
fn write_left(alloc: Global, actor: u32) -> Result<Json, NoMemory>
    ensures value { IfOk result (λ v. json_of v ≡ server_out (ServerMsg.Left actor)) }
    ensures again { IfOk result (λ v. IsServerAgain (ServerMsg.Left actor)) }
{
    let members = start_of(alloc, 102, actor)?;
    Ok(Json::Object(members))
}

#[tactic(auto, using(crate::proofs::Reread::heard_again))]
fn write_heard(alloc: Global, actor: u32, event: &Json) -> Result<Json, NoMemory>
    ensures value { IfOk result (λ v. json_of v ≡ server_out (ServerMsg.Broadcast actor event.now)) }
    ensures again { IfOk result (λ v. IsServerAgain (ServerMsg.Broadcast actor event.now)) }
{
    let mut members = start_of(alloc, 103, actor)?;
    put(alloc, &mut members, "event", event.copy(alloc)?)?;
    Ok(Json::Object(members))
}

/// An object with the name, or without one where it is empty.
fn write_user(alloc: Global, name: &Text) -> Result<Json, NoMemory>
    ensures { IfOk result (λ v. json_of v ≡ user_value name.now) }
{
    let mut members = Members::new(alloc);
    if name.len() > 0 {
        put(alloc, &mut members, "name", Json::Text(name.copy(alloc)?))?;
    }
    Ok(Json::Object(members))
}

fn put_user(alloc: Global, members: &mut Members, actor: u32, name: &Text) -> Result<(), NoMemory>
    ensures { OnOk result (members.new ≡ merged members.old (user_out (actor, name.now) ∷ [])) }
{
    let value = write_user(alloc, name)?;
    let mut key = Text::new(alloc);
    push_number(alloc, &mut key, u64::from(actor))?;
    drop(members.set(key, value)?);
    Ok(())
}

fn write_users(alloc: Global, users: &[(u32, Text)]) -> Result<Members, NoMemory>
    ensures value { IfOk result (λ m. m ≡ merged [] (map user_out users.now)) }
    ensures actors { IfOk result (λ m. AreActors users.now) }
{
    let mut members = Members::new(alloc);
    for user in users {
        put_user(alloc, &mut members, user.0, &user.1)?;
    }
    Ok(members)
}

#[tactic(auto, using(crate::proofs::Reread::room_again))]
fn write_room(alloc: Global, actor: u32, key: u64, users: &Users) -> Result<Json, NoMemory>
    requires { IsServed (ServerMsg.RoomState actor key users.now) }
    ensures value { IfOk result (λ v. json_of v ≡ server_out (ServerMsg.RoomState actor key users.now)) }
    ensures again { IfOk result (λ v. IsServerAgain (ServerMsg.RoomState actor key users.now)) }
{
    let mut members = start_of(alloc, 104, actor)?;
    put(
        alloc,
        &mut members,
        "key",
        Json::Text(write_key(alloc, key)?),
    )?;
    let users = write_users(alloc, users.as_slice())?;
    put(alloc, &mut members, "users", Json::Object(users))?;
    Ok(Json::Object(members))
}

fn put_more(alloc: Global, members: &mut Members, more: bool) -> Result<(), NoMemory>
    ensures { OnOk result (members.new ≡ merged members.old (more_out more)) }
{
    if more {
        put(alloc, members, "more", Json::Flag(true))
    } else {
        Ok(())
    }
}

#[tactic(auto, using(crate::proofs::Reread::state_again))]
fn write_state(
    alloc: Global,
    seq: u64,
    last: u64,
    items: &Items,
    more: bool,
) -> Result<Json, NoMemory>
    requires { IsServed (ServerMsg.State seq last items.now more) }
    ensures value { IfOk result (λ v. json_of v ≡ server_out (ServerMsg.State seq last items.now more)) }
    ensures again { IfOk result (λ v. IsServerAgain (ServerMsg.State seq last items.now more)) }
{
    let mut members = start(alloc, 200)?;
    put_number(alloc, &mut members, "seq", seq)?;
    put_number(alloc, &mut members, "last", last)?;
    put(alloc, &mut members, "items", Json::List(items.copy(alloc)?))?;
    put_more(alloc, &mut members, more)?;
    Ok(Json::Object(members))
}

#[tactic(auto, using(crate::proofs::Reread::updated_again))]
fn write_updated(alloc: Global, seq: u64, ops: &Ops) -> Result<Json, NoMemory>
    requires { IsServed (ServerMsg.Update seq ops.now) }
    ensures value { IfOk result (λ v. json_of v ≡ server_out (ServerMsg.Update seq ops.now)) }
    ensures again { IfOk result (λ v. IsServerAgain (ServerMsg.Update seq ops.now)) }
{
    let mut members = start(alloc, 201)?;
    put_number(alloc, &mut members, "seq", seq)?;
    put_ops(alloc, &mut members, ops)?;
    Ok(Json::Object(members))
}

fn write_msg(alloc: Global, msg: &ServerMsg) -> Result<Json, NoMemory>
    requires { IsServed msg.now }
    ensures value { IfOk result (λ v. json_of v ≡ server_out msg.now) }
    ensures again { IfOk result (λ v. IsServerAgain msg.now) }
{
    match msg {
        ServerMsg::Presence {
            actor,
            target,
            patch,
        } => write_seen(alloc, *actor, *target, patch),
        ServerMsg::Joined(actor) => write_joined(alloc, *actor),
        ServerMsg::Left(actor) => write_left(alloc, *actor),
        ServerMsg::Broadcast { actor, event } => write_heard(alloc, *actor, event),
        ServerMsg::RoomState { actor, key, users } => write_room(alloc, *actor, *key, users),
        ServerMsg::State {
            seq,
            last,
            items,
            more,
        } => write_state(alloc, *seq, *last, items, *more),
        ServerMsg::Update { seq, ops } => write_updated(alloc, *seq, ops),
    }
}

/// The text of a server's frame. Where it is not too deep it is read again as this message.
///
/// Asks for a target from -1 to 4294967295, an own actor from 1 on, users in rising order of actor, and `seq` and
/// `last` up to 2^53-1. Copies the message's texts and data. Fails only where memory runs out.
pub fn write_server(alloc: Global, msg: &ServerMsg) -> Result<Text, NoMemory>
    requires { IsServed msg.now }
    ensures text { IfOk result (λ t. t ≡ server_text msg.now) }
    ensures again { IfOk result (IsServerFrame msg.now) }
{
    let value = write_msg(alloc, msg)?;
    let text = write(alloc, &value)?;
    Ok(text)
}
