//! The fields of a message.
ghost use Rattle.std.specs.Prelude.{◌≡◌, option_and_then, IfOk, IfErr, ok_or, Some, Ok};
ghost use Rattle.std.specs.Option.{option_copied};
ghost use Rattle.room_json.specs.Fields.{field_of, needed};
ghost use Rattle.room_json.specs.Value.{as_text, as_members, as_list, as_flag};
ghost use Rattle.room_json.specs.View.{json_of};
ghost use Rattle.room_msg.specs.Msg.{as_target, as_count, as_actor, as_maker, as_key, as_name, as_resume};
ghost use Rattle.room_msg.specs.Msg.{as_client_code, as_server_code, at, maybe_at, IsFaultOf};
ghost use Rattle.room_msg.specs.declared.reason.Reason.TheVariants.{Field as FieldReason, Kind as KindReason};

use crate::codes::{ClientCode, ServerCode};
use crate::keys::read_key;
use crate::messages::Resume;
use crate::reason::{MsgFault, Reason};
use room_ids::MAX_ACTOR;
use room_json::{Copied, Items, Json, MAX_WHOLE, Members, NoMemory, Text, field};
use std::alloc::Global;

/// A client's name has at most this many bytes.
const MAX_NAME: u64 = 64;

/// The fault that a field is.
pub(crate) fn wrong(alloc: Global, name: &str) -> Result<MsgFault, NoMemory>
    ensures { IfOk result (λ fault. fault ≡ MsgFault.Bad (FieldReason name.now)) }
{
    Ok(MsgFault::Bad(Reason::Field(Text::from_str(alloc, name)?)))
}

/// What was found, or the fault of the field.
fn found<T: Drop>(alloc: Global, found: Option<T>, name: &str) -> Result<T, MsgFault>
    ensures ok { IfOk result (λ x. ok_or found (FieldReason name.now) ≡ Ok x) }
    ensures err { IfErr result (IsFaultOf (ok_or found (FieldReason name.now))) }
{
    match found {
        Some(found) => Ok(found),
        None => Err(wrong(alloc, name)?),
    }
}

fn count(v: &Json) -> Option<u64>
    ensures { result ≡ as_count (json_of v.now) }
{
    let count = u64::try_from(v.as_int()?).ok()?;
    if count <= MAX_WHOLE {
        Some(count)
    } else {
        None
    }
}

fn actor(v: &Json) -> Option<u32>
    ensures { result ≡ as_actor (json_of v.now) }
{
    u32::try_from(v.as_int()?).ok()
}

fn maker(v: &Json) -> Option<u32>
    ensures { result ≡ as_maker (json_of v.now) }
{
    let actor = actor(v)?;
    if actor >= 1 { Some(actor) } else { None }
}

fn target(v: &Json) -> Option<i64>
    ensures { result ≡ as_target (json_of v.now) }
{
    let target = v.as_int()?;
    if target >= -1 && target <= i64::from(MAX_ACTOR) {
        Some(target)
    } else {
        None
    }
}

fn key(v: &Json) -> Option<u64>
    ensures { result ≡ as_key (json_of v.now) }
{
    read_key(v.as_text()?)
}

fn short_text(v: &Json) -> Option<&Text>
    ensures { option_copied result ≡ as_name (json_of v.now) }
{
    let text = v.as_text()?;
    if text.len() <= MAX_NAME {
        Some(text)
    } else {
        None
    }
}

fn resume(v: &Json) -> Option<Resume>
    ensures { result ≡ as_resume (json_of v.now) }
{
    let actor = maker(field(v, "actor")?)?;
    let key = key(field(v, "key")?)?;
    Some(Resume { actor, key })
}

fn client_code(v: &Json) -> Option<ClientCode>
    ensures { result ≡ as_client_code (json_of v.now) }
{
    match v.as_int()? {
        1 => Some(ClientCode::Hello),
        100 => Some(ClientCode::Presence),
        103 => Some(ClientCode::Broadcast),
        200 => Some(ClientCode::Fetch),
        201 => Some(ClientCode::Update),
        _ => None,
    }
}

pub(crate) fn client_code_at(v: &Json, name: &str) -> Result<ClientCode, MsgFault>
    ensures ok { IfOk result (λ x. needed as_client_code KindReason (field_of name.now (json_of v.now)) ≡ Ok x) }
    ensures err { IfErr result (IsFaultOf (needed as_client_code KindReason (field_of name.now (json_of v.now)))) }
{
    match field(v, name) {
        Some(found) => client_code(found).ok_or(MsgFault::Bad(Reason::Kind)),
        None => Err(MsgFault::Bad(Reason::Kind)),
    }
}

fn server_code(v: &Json) -> Option<ServerCode>
    ensures { result ≡ as_server_code (json_of v.now) }
{
    match v.as_int()? {
        100 => Some(ServerCode::Presence),
        101 => Some(ServerCode::Joined),
        102 => Some(ServerCode::Left),
        103 => Some(ServerCode::Broadcast),
        104 => Some(ServerCode::RoomState),
        200 => Some(ServerCode::State),
        201 => Some(ServerCode::Update),
        _ => None,
    }
}

pub(crate) fn server_code_at(v: &Json, name: &str) -> Result<ServerCode, MsgFault>
    ensures ok { IfOk result (λ x. needed as_server_code KindReason (field_of name.now (json_of v.now)) ≡ Ok x) }
    ensures err { IfErr result (IsFaultOf (needed as_server_code KindReason (field_of name.now (json_of v.now)))) }
{
    match field(v, name) {
        Some(found) => server_code(found).ok_or(MsgFault::Bad(Reason::Kind)),
        None => Err(MsgFault::Bad(Reason::Kind)),
    }
}

fn count_of(v: &Json, name: &str) -> Option<u64>
    ensures { result ≡ option_and_then as_count (field_of name.now (json_of v.now)) }
{
    count(field(v, name)?)
}

pub(crate) fn count_at(alloc: Global, v: &Json, name: &str) -> Result<u64, MsgFault>
    ensures ok { IfOk result (λ x. at as_count name.now (json_of v.now) ≡ Ok x) }
    ensures err { IfErr result (IsFaultOf (at as_count name.now (json_of v.now))) }
{
    found(alloc, count_of(v, name), name)
}

fn actor_of(v: &Json, name: &str) -> Option<u32>
    ensures { result ≡ option_and_then as_actor (field_of name.now (json_of v.now)) }
{
    actor(field(v, name)?)
}

pub(crate) fn actor_at(alloc: Global, v: &Json, name: &str) -> Result<u32, MsgFault>
    ensures ok { IfOk result (λ x. at as_actor name.now (json_of v.now) ≡ Ok x) }
    ensures err { IfErr result (IsFaultOf (at as_actor name.now (json_of v.now))) }
{
    found(alloc, actor_of(v, name), name)
}

fn maker_of(v: &Json, name: &str) -> Option<u32>
    ensures { result ≡ option_and_then as_maker (field_of name.now (json_of v.now)) }
{
    maker(field(v, name)?)
}

pub(crate) fn maker_at(alloc: Global, v: &Json, name: &str) -> Result<u32, MsgFault>
    ensures ok { IfOk result (λ x. at as_maker name.now (json_of v.now) ≡ Ok x) }
    ensures err { IfErr result (IsFaultOf (at as_maker name.now (json_of v.now))) }
{
    found(alloc, maker_of(v, name), name)
}

fn key_of(v: &Json, name: &str) -> Option<u64>
    ensures { result ≡ option_and_then as_key (field_of name.now (json_of v.now)) }
{
    key(field(v, name)?)
}

pub(crate) fn key_at(alloc: Global, v: &Json, name: &str) -> Result<u64, MsgFault>
    ensures ok { IfOk result (λ x. at as_key name.now (json_of v.now) ≡ Ok x) }
    ensures err { IfErr result (IsFaultOf (at as_key name.now (json_of v.now))) }
{
    found(alloc, key_of(v, name), name)
}

pub(crate) fn members_at(alloc: Global, v: &Json, name: &str) -> Result<Members, MsgFault>
    ensures ok { IfOk result (λ x. at as_members name.now (json_of v.now) ≡ Ok x) }
    ensures err { IfErr result (IsFaultOf (at as_members name.now (json_of v.now))) }
{
    match field(v, name) {
        Some(found) => match found.as_object() {
            Some(members) => Ok(members.copy(alloc)?),
            None => Err(wrong(alloc, name)?),
        },
        None => Err(wrong(alloc, name)?),
    }
}

pub(crate) fn json_at(alloc: Global, v: &Json, name: &str) -> Result<Json, MsgFault>
    ensures ok { IfOk result (λ x. at Some name.now (json_of v.now) ≡ Ok (json_of x)) }
    ensures err { IfErr result (IsFaultOf (at Some name.now (json_of v.now))) }
{
    match field(v, name) {
        Some(found) => Ok(found.copy(alloc)?),
        None => Err(wrong(alloc, name)?),
    }
}

pub(crate) fn list_at<'a>(alloc: Global, v: &'a Json, name: &str) -> Result<&'a Items, MsgFault>
    ensures ok { IfOk result (λ x. at as_list name.now (json_of v.now) ≡ Ok x.now) }
    ensures err { IfErr result (IsFaultOf (at as_list name.now (json_of v.now))) }
{
    match field(v, name) {
        Some(found) => match found.as_list() {
            Some(items) => Ok(items),
            None => Err(wrong(alloc, name)?),
        },
        None => Err(wrong(alloc, name)?),
    }
}

pub(crate) fn text_at(alloc: Global, v: &Json, name: &str) -> Result<Text, MsgFault>
    ensures ok { IfOk result (λ x. at as_text name.now (json_of v.now) ≡ Ok x) }
    ensures err { IfErr result (IsFaultOf (at as_text name.now (json_of v.now))) }
{
    match field(v, name) {
        Some(found) => match found.as_text() {
            Some(text) => Ok(text.copy(alloc)?),
            None => Err(wrong(alloc, name)?),
        },
        None => Err(wrong(alloc, name)?),
    }
}

pub(crate) fn maybe_text_at(alloc: Global, v: &Json, name: &str) -> Result<Option<Text>, MsgFault>
    ensures ok { IfOk result (λ x. maybe_at as_text name.now (json_of v.now) ≡ Ok x) }
    ensures err { IfErr result (IsFaultOf (maybe_at as_text name.now (json_of v.now))) }
{
    match field(v, name) {
        Some(found) => match found.as_text() {
            Some(text) => Ok(Some(text.copy(alloc)?)),
            None => Err(wrong(alloc, name)?),
        },
        None => Ok(None),
    }
}

pub(crate) fn name_at(alloc: Global, v: &Json, name: &str) -> Result<Option<Text>, MsgFault>
    ensures ok { IfOk result (λ x. maybe_at as_name name.now (json_of v.now) ≡ Ok x) }
    ensures err { IfErr result (IsFaultOf (maybe_at as_name name.now (json_of v.now))) }
{
    match field(v, name) {
        Some(found) => match short_text(found) {
            Some(text) => Ok(Some(text.copy(alloc)?)),
            None => Err(wrong(alloc, name)?),
        },
        None => Ok(None),
    }
}

pub(crate) fn target_at(alloc: Global, v: &Json, name: &str) -> Result<Option<i64>, MsgFault>
    ensures ok { IfOk result (λ x. maybe_at as_target name.now (json_of v.now) ≡ Ok x) }
    ensures err { IfErr result (IsFaultOf (maybe_at as_target name.now (json_of v.now))) }
{
    match field(v, name) {
        Some(value) => match target(value) {
            Some(target) => Ok(Some(target)),
            None => Err(wrong(alloc, name)?),
        },
        None => Ok(None),
    }
}

pub(crate) fn resume_at(alloc: Global, v: &Json, name: &str) -> Result<Option<Resume>, MsgFault>
    ensures ok { IfOk result (λ x. maybe_at as_resume name.now (json_of v.now) ≡ Ok x) }
    ensures err { IfErr result (IsFaultOf (maybe_at as_resume name.now (json_of v.now))) }
{
    match field(v, name) {
        Some(value) => match resume(value) {
            Some(resume) => Ok(Some(resume)),
            None => Err(wrong(alloc, name)?),
        },
        None => Ok(None),
    }
}

pub(crate) fn flag_at(alloc: Global, v: &Json, name: &str) -> Result<Option<bool>, MsgFault>
    ensures ok { IfOk result (λ x. maybe_at as_flag name.now (json_of v.now) ≡ Ok x) }
    ensures err { IfErr result (IsFaultOf (maybe_at as_flag name.now (json_of v.now))) }
{
    match field(v, name) {
        Some(value) => match value.as_flag() {
            Some(flag) => Ok(Some(flag)),
            None => Err(wrong(alloc, name)?),
        },
        None => Ok(None),
    }
}
