//! Live values from JSON.
ghost use Rattle.std.specs.Prelude.{◌≡◌, IfOk, map, option_map};
ghost use Rattle.room_json.specs.View.{json_of};
ghost use Rattle.room_props.specs.Inits.{init_of};
ghost use Rattle.room_script.specs.Live.{init_of as live_of};
ghost use Rattle.room_script.specs.Living.{only, only_entry, live_named, live_entries};

use room_json::{Copied, Json, Members, NoMemory, Text};
use room_props::{Init, Inits, Parts};
use std::alloc::Global;
use std::collections::BTreeMap;

/// The live value that a value spells.
#[cycle(live)]
pub(crate) fn live(alloc: Global, value: &Json) -> Result<Init, NoMemory>
    ensures { IfOk result (λ i. init_of i ≡ live_of (json_of value.now)) }
{
    let Some((name, inner)) = only_member(value) else {
        return Ok(Init::Plain(value.copy(alloc)?));
    };
    match live_by_name(alloc, name, inner)? {
        Some(init) => Ok(init),
        None => Ok(Init::Plain(value.copy(alloc)?)),
    }
}

/// The name and the value of an object that has one.

fn only_member(value: &Json) -> Option<(&Text, &Json)>
    ensures { option_map (λ p. (p.0.now, json_of p.1.now)) result ≡ only (json_of value.now) }
{
    match value {
        Json::Object(members) => only_of(members),
        _ => None,
    }
}

fn only_of(members: &Members) -> Option<(&Text, &Json)>
    ensures { option_map (λ p. (p.0.now, json_of p.1.now)) result ≡ only_entry members.now }
{
    if members.len() == 1 {
        members.get(0)
    } else {
        None
    }
}

/// The live value of an object's one name and its value, unless it is plain.
#[cycle(live)]
fn live_by_name(alloc: Global, name: &Text, inner: &Json) -> Result<Option<Init>, NoMemory>
    ensures { IfOk result (λ i. option_map init_of i ≡ live_named name.now (json_of inner.now)) }
{
    match inner {
        Json::Object(members) => {
            if name.as_str() == "$object" {
                Ok(Some(Init::Object(live_parts(alloc, members.as_map())?)))
            } else if name.as_str() == "$map" {
                Ok(Some(Init::Map(live_parts(alloc, members.as_map())?)))
            } else {
                Ok(None)
            }
        }
        Json::List(items) => {
            if name.as_str() == "$list" {
                Ok(Some(Init::List(live_items(alloc, items.as_slice())?)))
            } else {
                Ok(None)
            }
        }
        _ => Ok(None),
    }
}

#[cycle(live)]
fn live_parts(alloc: Global, entries: &BTreeMap<Text, Json>) -> Result<Parts, NoMemory>
    ensures { IfOk result (λ ps. ps ≡ live_entries entries.now.entries) }
{
    let mut parts = Parts::new(alloc);
    for (name, item) in entries.iter() {
        let name = name.copy(alloc)?;
        drop(parts.set(name, live(alloc, item)?)?);
    }
    Ok(parts)
}

#[cycle(live)]
fn live_items(alloc: Global, items: &[Json]) -> Result<Inits, NoMemory>
    ensures { IfOk result (λ is. is ≡ map (λ j. live_of (json_of j)) items.now) }
{
    let mut inits = Inits::new(alloc);
    for item in items {
        inits.push(live(alloc, item)?)?;
    }
    Ok(inits)
}
