//! JSON values, fields and operations at the front of bytes.
ghost use Rattle.std.specs.Prelude.{◌≡◌, [], map, IfOk};
ghost use Rattle.room_json.specs.Reading.{value_of_text};
ghost use Rattle.room_json.specs.Value.{merged};
ghost use Rattle.room_json.specs.View.{json_of};
ghost use Rattle.room_bytes.specs.Reading.{Gives, value_in, json_at, field_at, fields_at, each_at, kind_at, paired};
ghost use Rattle.room_bytes.specs.Reading.{set_key_at, delete_key_at, update_at, delete_at, create_at, body_at};

use crate::misread::Misread;
use crate::numbers::{byte_of, id_of, replaced_of, string_of, text_of, u32_of};
use room_json::{Json, JsonFault, Members, NoMemory, Text, read};
use room_nodes::{Bodies, Body, Kind};
use std::alloc::Global;

fn value_of(alloc: Global, text: &[u8]) -> Result<Json, Misread>
    ensures { Gives json_of result (value_in (value_of_text text.now)) }
{
    match read(alloc, text) {
        Ok(value) => Ok(value),
        Err(JsonFault::Memory) => Err(Misread::Memory),
        Err(JsonFault::NotJson) => Err(Misread::NoValue),
        Err(JsonFault::TooDeep(_)) => Err(Misread::NoValue),
        Err(JsonFault::BadNumber) => Err(Misread::NoValue),
    }
}

/// The JSON value whose text stands at the front.
#[tactic(auto, unfolding(crate::specs::Reading::json_at))]
pub fn json_part(alloc: Global, bytes: &[u8]) -> Result<(Json, &[u8]), Misread>
    ensures { Gives (λ x. (json_of x.0, x.1.now)) result (json_at bytes.now) }
{
    let (string, rest) = string_of(bytes)?;
    let value = value_of(alloc, string)?;
    Ok((value, rest))
}

#[tactic(auto, unfolding(crate::specs::Reading::field_at))]
fn field_of(alloc: Global, bytes: &[u8]) -> Result<((Text, Json), &[u8]), Misread>
    ensures { Gives (λ x. (paired x.0, x.1.now)) result (field_at bytes.now) }
{
    let (name, rest) = text_of(alloc, bytes)?;
    let (value, rest) = json_part(alloc, rest)?;
    Ok(((name, value), rest))
}

fn each_field(
    alloc: Global,
    count: u32,
    bytes: &[u8],
) -> Result<(Vec<(Text, Json)>, &[u8]), Misread>
    ensures { Gives (λ x. (map paired x.0.items, x.1.now)) result (each_at field_at count bytes.now) }
{
    let mut fields = Vec::new(alloc);
    let mut rest = bytes;
    for _ in 0..count {
        let (field, after) = field_of(alloc, rest)?;
        fields.push(field)?;
        rest = after;
    }
    Ok((fields, rest))
}

fn members_of(alloc: Global, fields: Vec<(Text, Json)>) -> Result<Members, NoMemory>
    ensures { IfOk result (λ m. m ≡ merged [] (map paired fields.items)) }
{
    let mut members = Members::new(alloc);
    for (name, value) in fields {
        drop(members.set(name, value)?);
    }
    Ok(members)
}

/// The fields at the front, in whatever order.
#[tactic(auto, unfolding(crate::specs::Reading::fields_at))]
pub fn fields_of(alloc: Global, bytes: &[u8]) -> Result<(Members, &[u8]), Misread>
    ensures { Gives (λ x. (x.0, x.1.now)) result (fields_at bytes.now) }
{
    let (count, rest) = u32_of(bytes)?;
    let (fields, rest) = each_field(alloc, count, rest)?;
    let members = members_of(alloc, fields)?;
    Ok((members, rest))
}

#[tactic(auto, using(room_json::proofs::Again::json_again), unfolding(crate::specs::Reading::kind_at))]
pub(crate) fn kind_of(alloc: Global, code: u8, bytes: &[u8]) -> Result<(Kind, &[u8]), Misread>
    ensures { Gives (λ x. (x.0, x.1.now)) result (kind_at code bytes.now) }
{
    match code {
        2 => Ok((Kind::List, bytes)),
        4 => {
            let (fields, rest) = fields_of(alloc, bytes)?;
            Ok((Kind::Object(fields), rest))
        }
        7 => Ok((Kind::Map, bytes)),
        8 => {
            let (value, rest) = json_part(alloc, bytes)?;
            Ok((Kind::Register(value), rest))
        }
        _ => Err(Misread::NoValue),
    }
}

#[tactic(auto, unfolding(crate::specs::Reading::set_key_at))]
fn set_key_of(alloc: Global, bytes: &[u8]) -> Result<(Body, &[u8]), Misread>
    ensures { Gives (λ x. (x.0, x.1.now)) result (set_key_at bytes.now) }
{
    let (node, rest) = match id_of(bytes) {
        Ok(found) => found,
        Err(fault) => return Err(fault),
    };
    let (key, rest) = text_of(alloc, rest)?;
    Ok((Body::SetKey { node, key }, rest))
}

#[tactic(auto, unfolding(crate::specs::Reading::delete_key_at))]
fn delete_key_of(alloc: Global, bytes: &[u8]) -> Result<(Body, &[u8]), Misread>
    ensures { Gives (λ x. (x.0, x.1.now)) result (delete_key_at bytes.now) }
{
    let (node, rest) = match id_of(bytes) {
        Ok(found) => found,
        Err(fault) => return Err(fault),
    };
    let (key, rest) = text_of(alloc, rest)?;
    Ok((Body::DeleteKey { node, key }, rest))
}

#[tactic(auto, unfolding(crate::specs::Reading::update_at))]
fn update_of(alloc: Global, bytes: &[u8]) -> Result<(Body, &[u8]), Misread>
    ensures { Gives (λ x. (x.0, x.1.now)) result (update_at bytes.now) }
{
    let (node, rest) = match id_of(bytes) {
        Ok(found) => found,
        Err(fault) => return Err(fault),
    };
    let (fields, rest) = fields_of(alloc, rest)?;
    Ok((Body::Update { node, fields }, rest))
}

#[tactic(auto, unfolding(crate::specs::Reading::delete_at))]
fn delete_of(bytes: &[u8]) -> Result<(Body, &[u8]), Misread>
    ensures { Gives (λ x. (x.0, x.1.now)) result (delete_at bytes.now) }
{
    let (node, rest) = match id_of(bytes) {
        Ok(found) => found,
        Err(fault) => return Err(fault),
    };
    Ok((Body::Delete { node }, rest))
}

#[tactic(auto, unfolding(crate::specs::Reading::create_at))]
fn create_of(alloc: Global, code: u8, bytes: &[u8]) -> Result<(Body, &[u8]), Misread>
    ensures { Gives (λ x. (x.0, x.1.now)) result (create_at code bytes.now) }
{
    let (node, rest) = match id_of(bytes) {
        Ok(found) => found,
        Err(fault) => return Err(fault),
    };
    let (parent, rest) = match id_of(rest) {
        Ok(found) => found,
        Err(fault) => return Err(fault),
    };
    let (key, rest) = text_of(alloc, rest)?;
    let (replaces, rest) = match replaced_of(rest) {
        Ok(found) => found,
        Err(fault) => return Err(fault),
    };
    let (kind, rest) = kind_of(alloc, code, rest)?;
    let body = Body::Create {
        node,
        parent,
        key,
        replaces,
        kind,
    };
    Ok((body, rest))
}

#[tactic(auto, unfolding(crate::specs::Reading::body_at))]
fn body_of(alloc: Global, bytes: &[u8]) -> Result<(Body, &[u8]), Misread>
    ensures { Gives (λ x. (x.0, x.1.now)) result (body_at bytes.now) }
{
    let (code, rest) = byte_of(bytes)?;
    match code {
        1 => set_key_of(alloc, rest),
        3 => update_of(alloc, rest),
        5 => delete_of(rest),
        6 => delete_key_of(alloc, rest),
        _ => create_of(alloc, code, rest),
    }
}

pub(crate) fn each_body(alloc: Global, count: u32, bytes: &[u8]) -> Result<(Bodies, &[u8]), Misread>
    ensures { Gives (λ x. (x.0, x.1.now)) result (each_at body_at count bytes.now) }
{
    let mut bodies = Bodies::new(alloc);
    let mut rest = bytes;
    for _ in 0..count {
        let (body, after) = body_of(alloc, rest)?;
        bodies.push(body)?;
        rest = after;
    }
    Ok((bodies, rest))
}
