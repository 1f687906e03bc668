//! Cases of `room_json`: values, objects, lists and texts.
use room_case_text::{
    Broken, bytes, item, items, number, number_at, object_at, shown, text_at, value,
};
use room_json::{
    Copied, Json, JsonFault, Members, NoMemory, Seq, Text, TextFault, depth, field, merge, put,
    read, write,
};
use std::alloc::Global;

/// What comes of a case of values: of a text as it stands, of bytes, of a number, or of JSON.
pub(crate) fn outcome(alloc: Global, verb: &str, rest: &str) -> Result<String, Broken> {
    match verb {
        "read" => again(alloc, rest.as_bytes()),
        "depth" => depth_read(alloc, rest.as_bytes()),
        "memory" => Ok(format!(in alloc; "{NoMemory}")?),
        "nested" => nested_read(alloc, number(rest)?),
        "bytes" | "text" => of_bytes(alloc, verb, bytes(alloc, rest)?.as_slice()),
        _ => of_json(alloc, verb, &value(alloc, rest)?),
    }
}

fn of_bytes(alloc: Global, verb: &str, bytes: &[u8]) -> Result<String, Broken> {
    if verb == "text" {
        text_of(alloc, bytes)
    } else {
        again(alloc, bytes)
    }
}

fn of_json(alloc: Global, verb: &str, v: &Json) -> Result<String, Broken> {
    match verb {
        "merge" => merged(alloc, v),
        "set" => set(alloc, v),
        "remove" => removed(alloc, v),
        "find" => found(alloc, v),
        "insert" => inserted(alloc, v),
        _ => Err(Broken::Verb),
    }
}

/// What stands at a name, or `-`.
fn shown_or_none(alloc: Global, v: Option<&Json>) -> Result<String, Broken> {
    match v {
        Some(json) => shown(alloc, json),
        None => Ok(format!(in alloc; "-")?),
    }
}

/// The compact text of what is read of a text, or why nothing is.
fn again(alloc: Global, text: &[u8]) -> Result<String, Broken> {
    match read(alloc, text) {
        Ok(json) => shown(alloc, &json),
        Err(fault) => refused(alloc, &fault),
    }
}

fn refused(alloc: Global, fault: &JsonFault) -> Result<String, Broken> {
    match fault {
        JsonFault::Memory => Err(Broken::Memory),
        _ => Ok(format!(in alloc; "{fault}")?),
    }
}

/// The depth of what is read of a text, or why nothing is.
fn depth_read(alloc: Global, text: &[u8]) -> Result<String, Broken> {
    match read(alloc, text) {
        Ok(json) => Ok(format!(in alloc; "{}", depth(&json))?),
        Err(fault) => refused(alloc, &fault),
    }
}

/// The depth of so many lists, each in the one before, or why they are not read.
fn nested_read(alloc: Global, levels: u64) -> Result<String, Broken> {
    let text = nested(alloc, levels)?;
    depth_read(alloc, text.as_bytes())
}

/// So many lists, each in the one before.
pub(crate) fn nested(alloc: Global, levels: u64) -> Result<Text, NoMemory> {
    let mut text = Text::new(alloc);
    for _ in 0..levels {
        text.push_str("[")?;
    }
    for _ in 0..levels {
        text.push_str("]")?;
    }
    Ok(text)
}

/// The first object with the members of the second merged into it.
fn merged(alloc: Global, v: &Json) -> Result<String, Broken> {
    let mut members = object_at(v, 0)?.copy(alloc)?;
    merge(alloc, &mut members, object_at(v, 1)?)?;
    shown(alloc, &Json::Object(members))
}

/// What stood at a name, and the object by now.
fn told(alloc: Global, old: Option<Json>, members: Members) -> Result<String, Broken> {
    let old = shown_or_none(alloc, old.as_ref())?;
    let count = members.len();
    let now = shown(alloc, &Json::Object(members))?;
    Ok(format!(in alloc; "{old} gone, {count} left: {now}")?)
}

/// The object with the name set to the value.
fn set(alloc: Global, v: &Json) -> Result<String, Broken> {
    let name = text_at(v, 1)?;
    let json = item(v, 2)?;
    let mut members = object_at(v, 0)?.copy(alloc)?;
    let old = members.set(name.copy(alloc)?, json.copy(alloc)?)?;
    told(alloc, old, members)
}

/// The object without the name.
fn removed(alloc: Global, v: &Json) -> Result<String, Broken> {
    let name = text_at(v, 1)?;
    let mut members = object_at(v, 0)?.copy(alloc)?;
    let old = members.remove(name);
    told(alloc, old, members)
}

/// What stands at the name, found in each way that there is.
fn found(alloc: Global, v: &Json) -> Result<String, Broken> {
    let members = object_at(v, 0)?;
    let name = text_at(v, 1)?;
    let by_text = shown_or_none(alloc, members.find(name))?;
    let by_str = shown_or_none(alloc, members.get_str(name.as_str()))?;
    let by_field = shown_or_none(alloc, field(item(v, 0)?, name.as_str()))?;
    Ok(format!(in alloc; "{by_text} {by_str} {by_field}")?)
}

fn numbers_of(alloc: Global, v: &Json) -> Result<Seq<u64>, Broken> {
    let mut numbers: Seq<u64> = Seq::new(alloc);
    for i in 0..items(v)?.len() {
        numbers.push(number_at(v, i)?)?;
    }
    Ok(numbers)
}

fn numbers_told(alloc: Global, numbers: &[u64]) -> Result<String, Broken> {
    let mut text = format!(in alloc; "{}:", numbers.len())?;
    for number in numbers {
        text.push_str(format!(in alloc; " {number}")?.as_str())?;
    }
    Ok(text)
}

fn insert_at(numbers: &mut Seq<u64>, at: u64, number: u64) -> Result<(), Broken> {
    if at > numbers.len() {
        return Err(Broken::Number);
    }
    numbers.insert(at as usize, number)?;
    Ok(())
}

/// The numbers with one more put in at a place.
fn inserted(alloc: Global, v: &Json) -> Result<String, Broken> {
    let at = number_at(v, 1)?;
    let number = number_at(v, 2)?;
    let mut numbers = numbers_of(alloc, item(v, 0)?)?;
    insert_at(&mut numbers, at, number)?;
    numbers_told(alloc, numbers.as_slice())
}

/// The text that bytes spell, in parts put together again; or why they spell none.
fn text_of(alloc: Global, bytes: &[u8]) -> Result<String, Broken> {
    match Text::from_bytes(alloc, bytes) {
        Ok(text) => {
            let mut members = Members::new(alloc);
            put(
                alloc,
                &mut members,
                text.as_str(),
                Json::Text(text.copy(alloc)?),
            )?;
            shown(alloc, &Json::Object(members))
        },
        Err(TextFault::Memory) => Err(Broken::Memory),
        Err(fault) => Ok(format!(in alloc; "{fault}")?),
    }
}
