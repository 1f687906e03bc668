//! The users of a room state as they are read.
ghost use Rattle.std.specs.Prelude.{◌≡◌, ◌≤◌, [], IfOk, IfErr, OnOk, Ok, length};
ghost use Rattle.std.specs.Cmp.Lexicographic.{slice_cmp};
ghost use Rattle.std.specs.List.Sorted.{IsStrictlySortedBy};
ghost use Rattle.std.specs.Map.{keys_of};
ghost use Rattle.std.specs.Ordering.{nat_cmp};
ghost use Rattle.room_ids.specs.Ids.{number_in};
ghost use Rattle.room_json.specs.View.{json_of, members_view};
ghost use Rattle.room_msg.specs.Msg.{at, IsFaultOf};
ghost use Rattle.room_msg.specs.Users.{users_of, user_in, insert_user, place_of, name_in, as_users};

use crate::fields::wrong;
use crate::reason::MsgFault;
use crate::users::Users;
use room_ids::{MAX_ACTOR, read_number};
use room_json::{Copied, Json, NoMemory, Sound, Text, field};
use std::alloc::Global;
use std::collections::BTreeMap;

/// Where an actor goes.
fn place(users: &[(u32, Text)], actor: u32) -> usize
    ensures within { result ≤ length users.now }
    ensures value { result ≡ place_of actor users.now }
{
    let mut at = 0;
    for other in users {
        if actor <= other.0 {
            return at;
        }
        at += 1;
    }
    at
}

#[tactic(auto, using(crate::proofs::Places::insert_placed))]
fn put_user(users: &mut Users, actor: u32, name: Text) -> Result<(), NoMemory>
    ensures { OnOk result (users.new ≡ insert_user (actor, name) users.old) }
{
    let at = place(users.as_slice(), actor);
    users.insert(at, actor, name)
}

fn read_actor(name: &Text) -> Option<u32>
    ensures { result ≡ number_in 4294967295 name.now }
{
    u32::try_from(read_number(name.as_bytes(), u64::from(MAX_ACTOR))?).ok()
}

/// A text `name`, and else the empty name.
fn name_of(alloc: Global, v: &Json) -> Result<Text, NoMemory>
    ensures { IfOk result (λ t. t ≡ name_in (json_of v.now)) }
{
    match field(v, "name") {
        Some(value) => match value.as_text() {
            Some(name) => name.copy(alloc),
            None => Ok(Text::new(alloc)),
        },
        None => Ok(Text::new(alloc)),
    }
}

/// The actor with its name, or None where one is wrong.
fn read_user(alloc: Global, name: &Text, v: &Json) -> Result<Option<(u32, Text)>, NoMemory>
    ensures { IfOk result (λ user. user_in (name.now, json_of v.now) ≡ user) }
{
    let Some(actor) = read_actor(name) else {
        return Ok(None);
    };
    if v.as_object().is_none() {
        return Ok(None);
    }
    Ok(Some((actor, name_of(alloc, v)?)))
}

/// The actors with their names, or None where one is wrong.
fn read_entries(alloc: Global, map: &BTreeMap<Text, Json>) -> Result<Option<Users>, NoMemory>
    requires { IsStrictlySortedBy (slice_cmp nat_cmp) (keys_of (members_view map.now.entries)) }
    ensures { IfOk result (λ found. users_of (members_view map.now.entries) ≡ found) }
{
    let mut found = Users::new(alloc);
    for (name, item) in map.iter() {
        match read_user(alloc, name, item)? {
            Some((actor, name)) => put_user(&mut found, actor, name)?,
            None => return Ok(None),
        }
    }
    Ok(Some(found))
}

fn read_users(alloc: Global, v: &Json) -> Result<Option<Users>, NoMemory>
    ensures { IfOk result (λ found. as_users (json_of v.now) ≡ found) }
{
    match v.as_object() {
        Some(users) => {
            users.sound();
            read_entries(alloc, users.as_map())
        }
        None => Ok(None),
    }
}

pub(crate) fn users_at(alloc: Global, v: &Json, name: &str) -> Result<Users, MsgFault>
    ensures ok { IfOk result (λ x. at as_users name.now (json_of v.now) ≡ Ok x) }
    ensures err { IfErr result (IsFaultOf (at as_users name.now (json_of v.now))) }
{
    match field(v, name) {
        Some(value) => match read_users(alloc, value)? {
            Some(users) => Ok(users),
            None => Err(wrong(alloc, name)?),
        },
        None => Err(wrong(alloc, name)?),
    }
}
