//! The words of a line, and what stands at its end.
ghost use Rattle.std.specs.Prelude.{◌≡◌};
ghost use Rattle.std.specs.Option.{option_copied};
ghost use Rattle.room_json.specs.View.{json_of};
ghost use Rattle.room_script.specs.Words.{word_of, rest_of, end_of, key_in, value_to_end, object_to_end, text_to_end};
ghost use Rattle.room_script.specs.Words.{is_printed, text_in, value_in};
ghost use Rattle.room_script.specs.Giving.{Gives};

use crate::fault::Misread;
use room_json::{Json, JsonFault, Members, Text, TextFault};
use std::alloc::Global;

/// What stands before the first space, and what behind it.
pub(crate) fn cut(line: &[u8]) -> (&[u8], Option<&[u8]>)
    ensures word { result.0.now ≡ word_of line.now }
    ensures rest { option_copied result.1 ≡ rest_of line.now }
{
    for at in 0..line.len() {
        if line[at] == b' ' {
            return (&line[..at], Some(&line[at + 1..]));
        }
    }
    (line, None)
}

/// What is left, where the line goes on.
pub(crate) fn next(rest: Option<&[u8]>) -> Result<&[u8], Misread>
    ensures { Gives (λ r. r.now) result (option_copied rest.entry) }
{
    rest.ok_or(Misread::Outside)
}

/// That the line has ended.
pub(crate) fn at_end(rest: Option<&[u8]>) -> Result<(), Misread>
    ensures { Gives (λ u. u) result (end_of (option_copied rest.entry)) }
{
    match rest {
        Some(_) => Err(Misread::Outside),
        None => Ok(()),
    }
}

fn are_printed(word: &[u8]) -> bool
    ensures { result ≡ is_printed word.now }
{
    for byte in word {
        if !(33..=126).contains(byte) {
            return false;
        }
    }
    true
}

/// The text of a key.
pub(crate) fn read_key(alloc: Global, word: &[u8]) -> Result<Text, Misread>
    ensures { Gives (λ t. t) result (key_in word.now) }
{
    if word.is_empty() || !are_printed(word) {
        return Err(Misread::Outside);
    }
    read_text(alloc, word)
}

/// The text of these bytes.
#[tactic(auto, using(crate::proofs::Texts::texts))]
fn read_text(alloc: Global, bytes: &[u8]) -> Result<Text, Misread>
    ensures { Gives (λ t. t) result (text_in bytes.now) }
{
    match Text::from_bytes(alloc, bytes) {
        Ok(text) => Ok(text),
        Err(TextFault::Memory) => Err(Misread::Memory),
        Err(TextFault::NotUtf8) => Err(Misread::Outside),
    }
}

/// A text to the line's end.
pub(crate) fn last_text(alloc: Global, rest: Option<&[u8]>) -> Result<Text, Misread>
    ensures { Gives (λ t. t) result (text_to_end (option_copied rest.entry)) }
{
    read_text(alloc, next(rest)?)
}

fn read_value(alloc: Global, bytes: &[u8]) -> Result<Json, Misread>
    ensures { Gives json_of result (value_in bytes.now) }
{
    match room_json::read(alloc, bytes) {
        Ok(value) => Ok(value),
        Err(JsonFault::Memory) => Err(Misread::Memory),
        Err(_) => Err(Misread::Outside),
    }
}

/// A value to the line's end.
pub(crate) fn last_value(alloc: Global, rest: Option<&[u8]>) -> Result<Json, Misread>
    ensures { Gives json_of result (value_to_end (option_copied rest.entry)) }
{
    read_value(alloc, next(rest)?)
}

/// The members of an object to the line's end.
#[tactic(auto, using(room_json::proofs::Values::list_laws))]
pub(crate) fn last_object(alloc: Global, rest: Option<&[u8]>) -> Result<Members, Misread>
    ensures { Gives (λ ms. ms) result (object_to_end (option_copied rest.entry)) }
{
    match last_value(alloc, rest)? {
        Json::Object(members) => Ok(members),
        _ => Err(Misread::Outside),
    }
}
