//! What stands behind a case's command: words, numbers, bytes and JSON.
use crate::missing::Broken;
use room_ids::{NodeId, read_number};
use room_json::{Items, Json, MAX_WHOLE, Members, Text, read};
use std::alloc::Global;

/// What stands before the first blank, and what behind it.
pub fn cut(line: &str) -> (&str, &str) {
    match line.split_once(' ') {
        Some(parts) => parts,
        None => (line, ""),
    }
}

/// The number that a text spells, at most 2^53-1.
pub fn number(text: &str) -> Result<u64, Broken> {
    match read_number(text.as_bytes(), MAX_WHOLE) {
        Some(number) => Ok(number),
        None => Err(Broken::Number),
    }
}

/// The bytes that words of hex digits spell.
pub fn bytes(alloc: Global, words: &str) -> Result<Vec<u8>, Broken> {
    let mut all = Vec::new(alloc);
    for word in words.split_whitespace() {
        let Ok(some) = hex::decode(alloc, word) else {
            return Err(Broken::Hex);
        };
        all.extend_from_slice(some.as_slice())?;
    }
    Ok(all)
}

/// The value that a text spells.
pub fn value(alloc: Global, text: &str) -> Result<Json, Broken> {
    Ok(read(alloc, text.as_bytes())?)
}

/// The items of a list.
pub fn items(v: &Json) -> Result<&Items, Broken> {
    match v.as_list() {
        Some(items) => Ok(items),
        None => Err(Broken::List),
    }
}

/// An item of a list.
pub fn item(v: &Json, at: u64) -> Result<&Json, Broken> {
    match items(v)?.get(at) {
        Some(item) => Ok(item),
        None => Err(Broken::Item),
    }
}

/// An item that is an object.
pub fn object_at(v: &Json, at: u64) -> Result<&Members, Broken> {
    match item(v, at)?.as_object() {
        Some(members) => Ok(members),
        None => Err(Broken::Object),
    }
}

/// An item that is a text.
pub fn text_at(v: &Json, at: u64) -> Result<&Text, Broken> {
    match item(v, at)?.as_text() {
        Some(text) => Ok(text),
        None => Err(Broken::Text),
    }
}

/// An item that is a number, not below zero.
pub fn number_at(v: &Json, at: u64) -> Result<u64, Broken> {
    match item(v, at)?.as_int() {
        Some(number) if number >= 0 => Ok(number.unsigned_abs()),
        _ => Err(Broken::Number),
    }
}

/// The node that a text spells.
pub fn node(text: &str) -> Result<NodeId, Broken> {
    match NodeId::read(text.as_bytes()) {
        Some(id) => Ok(id),
        None => Err(Broken::Node),
    }
}
