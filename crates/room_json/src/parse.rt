//! The value that a text spells.
ghost use Rattle.std.specs.Prelude.{◌≡◌, ◌≤◌, ◌^◌, ◌-◌, min, Some, None, Ok, IfOk, IfErr, ok_or, []};
ghost use Rattle.serde_json.specs.Data.{depth, items_depth, members_depth};
ghost use Rattle.serde_json.specs.View.{view, number_view, items_view, members_view as object_view};
ghost use Rattle.room_json.specs.Reading.{whole_in, value_in, items_in, members_into, value_of_text, data_in};
ghost use Rattle.room_json.specs.Reading.{profile_in, not_json, IsFaultOf};
ghost use Rattle.room_json.specs.View.{json_of};

use crate::memory::NoMemory;
use crate::numbers::Whole;
use crate::reading::JsonFault;
use crate::tree::{Items, Json, Members};
use crate::utf8::Text;
use serde_json::{Map, Number, Value};
use std::alloc::Global;

/// How many levels of lists and objects a value has at most, where it is read.
pub const MAX_DEPTH: u64 = 60;

#[derive(Clone, Copy, Debug, PartialEq, Eq)]
enum Misread {
    Memory,
    Number,
}

impl From<NoMemory> for Misread {
    ghost use Rattle.std.specs.Prelude.{◌≡◌};
    ghost use Rattle.room_json.specs.declared.parse.Misread.TheVariants.{Memory};

    ghost from_gives = { λ _ e. e ≡ Memory };

    fn from(_error: NoMemory) -> Misread {
        Misread::Memory
    }
}

impl From<Misread> for JsonFault {
    ghost use Rattle.std.specs.Prelude.{◌≡◌};
    ghost use Rattle.room_json.specs.Reading.{fault_of};

    ghost from_gives = { λ m e. e ≡ fault_of m };

    fn from(misread: Misread) -> JsonFault {
        match misread {
            Misread::Memory => JsonFault::Memory,
            Misread::Number => JsonFault::BadNumber,
        }
    }
}

/// Reads a value of the profile.
///
/// `NotJson` where `serde_json` reads nothing from the bytes, `TooDeep` with the depth where it is over 60,
/// `BadNumber` where a number isn't whole or has more than 53 bits; in this order.
pub fn read(alloc: Global, bytes: &[u8]) -> Result<Json, JsonFault>
    ensures ok { IfOk result (λ v. value_of_text bytes.now ≡ Ok (json_of v)) }
    ensures err { IfErr result (IsFaultOf (value_of_text bytes.now)) }
{
    let value = parsed(alloc, bytes)?;
    profiled(alloc, value)
}

fn parsed(alloc: Global, bytes: &[u8]) -> Result<Value, JsonFault>
    ensures ok { IfOk result (λ v. data_in bytes.now ≡ Some (view v)) }
    ensures nests { IfOk result (λ v. depth (view v) ≤ 127) }
    ensures err { IfErr result (IsFaultOf (ok_or (data_in bytes.now) not_json)) }
{
    match Value::from_slice(alloc, bytes) {
        Ok(value) => Ok(value),
        Err(error) => {
            if error.is_memory() {
                Err(JsonFault::Memory)
            } else {
                Err(JsonFault::NotJson)
            }
        }
    }
}

fn profiled(alloc: Global, value: Value) -> Result<Json, JsonFault>
    requires { depth (view value) ≤ 127 }
    ensures ok { IfOk result (λ v. profile_in (view value) ≡ Ok (json_of v)) }
    ensures err { IfErr result (IsFaultOf (profile_in (view value))) }
{
    let levels = value_depth(&value);
    if levels > MAX_DEPTH {
        return Err(JsonFault::TooDeep(levels));
    }
    Ok(json_from(alloc, value)?)
}

fn whole_from(number: &Number) -> Option<Whole>
    ensures { result ≡ whole_in (number_view number.now) }
{
    Whole::new(number.as_i64()?)
}

#[cycle(from)]
fn json_from(alloc: Global, value: Value) -> Result<Json, Misread>
    ensures ok { IfOk result (λ v. value_in (view value) ≡ Some (json_of v)) }
    ensures err { IfErr result (λ e. e ≡ Misread.Number → value_in (view value) ≡ None) }
{
    match value {
        Value::Null => Ok(Json::Null),
        Value::Bool(b) => Ok(Json::Flag(b)),
        Value::Number(number) => match whole_from(&number) {
            Some(whole) => Ok(Json::Int(whole)),
            None => Err(Misread::Number),
        },
        Value::String(text) => Ok(Json::Text(Text::from_string(text))),
        Value::Array(values) => Ok(Json::List(items_from(alloc, values)?)),
        Value::Object(map) => Ok(Json::Object(members_from(alloc, map)?)),
    }
}

#[cycle(from)]
fn items_from(alloc: Global, values: Vec<Value>) -> Result<Items, Misread>
    ensures ok { IfOk result (λ v. items_in (items_view values.items) ≡ Some v) }
    ensures err { IfErr result (λ e. e ≡ Misread.Number → items_in (items_view values.items) ≡ None) }
{
    let mut items = Items::new(alloc);
    for value in values {
        items.push(json_from(alloc, value)?)?;
    }
    Ok(items)
}

#[cycle(from)]
fn members_from(alloc: Global, map: Map<String, Value>) -> Result<Members, Misread>
    ensures ok { IfOk result (λ v. members_into (object_view map.entries) [] ≡ Some v) }
    ensures err { IfErr result (λ e. e ≡ Misread.Number → members_into (object_view map.entries) [] ≡ None) }
{
    let mut members = Members::new(alloc);
    for (name, value) in map {
        drop(members.set(Text::from_string(name), json_from(alloc, value)?)?);
    }
    Ok(members)
}

#[cycle(value_depth)]
fn value_depth(value: &Value) -> u64
    ensures { result ≡ min (depth (view value.now)) (2 ^ 64 - 1) }
{
    match value {
        Value::Array(items) => array_depth(items.as_slice()).saturating_add(1),
        Value::Object(members) => object_depth(members).saturating_add(1),
        _ => 0,
    }
}

#[cycle(value_depth)]
fn array_depth(values: &[Value]) -> u64
    ensures { result ≡ min (items_depth (items_view values.now)) (2 ^ 64 - 1) }
{
    let mut most = 0;
    for value in values {
        most = value_depth(value).max(most);
    }
    most
}

#[cycle(value_depth)]
fn object_depth(map: &Map<String, Value>) -> u64
    ensures { result ≡ min (members_depth (object_view map.now.entries)) (2 ^ 64 - 1) }
{
    let mut most = 0;
    for (_name, value) in map.iter() {
        most = value_depth(value).max(most);
    }
    most
}
