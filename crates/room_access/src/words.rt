//! The words of a line.
ghost use Rattle.std.specs.Prelude.{◌≡◌};
ghost use Rattle.std.specs.Option.{option_copied};
ghost use Rattle.room_script.specs.Words.{word_of, rest_of, end_of, key_in, is_printed, text_in};
ghost use Rattle.room_access.specs.Grammar.{is_name_byte, is_name_start, are_name_bytes, is_name, name_in};
ghost use Rattle.room_access.specs.Grammar.{place_in, level_in};
ghost use Rattle.room_access.specs.Giving.{Gives};
ghost use Rattle.room_access.specs.View.{level_of};

use crate::access::Level;
use crate::fault::Misread;
use room_json::{Text, TextFault};
use std::alloc::Global;

/// What stands before the first space, and what behind it.
pub(crate) fn cut(line: &[u8]) -> (&[u8], Option<&[u8]>)
    ensures word { result.0.now ≡ word_of line.now }
    ensures rest { option_copied result.1 ≡ rest_of line.now }
{
    for at in 0..line.len() {
        if line[at] == b' ' {
            return (&line[..at], Some(&line[at + 1..]));
        }
    }
    (line, None)
}

/// What is left, where the line goes on.
pub(crate) fn next(rest: Option<&[u8]>) -> Result<&[u8], Misread>
    ensures { Gives (λ r. r.now) result (option_copied rest.entry) }
{
    rest.ok_or(Misread::Outside)
}

/// That the line has ended.
pub(crate) fn at_end(rest: Option<&[u8]>) -> Result<(), Misread>
    ensures { Gives (λ u. u) result (end_of (option_copied rest.entry)) }
{
    match rest {
        Some(_) => Err(Misread::Outside),
        None => Ok(()),
    }
}

fn are_printed(word: &[u8]) -> bool
    ensures { result ≡ is_printed word.now }
{
    for byte in word {
        if !(33..=126).contains(byte) {
            return false;
        }
    }
    true
}

/// The word of a pass: printed characters, at least one.
pub(crate) fn read_key(alloc: Global, word: &[u8]) -> Result<Text, Misread>
    ensures { Gives (λ t. t) result (key_in word.now) }
{
    if word.is_empty() || !are_printed(word) {
        return Err(Misread::Outside);
    }
    read_text(alloc, word)
}

/// The text of these bytes.
#[tactic(auto, using(room_script::proofs::Texts::texts))]
fn read_text(alloc: Global, bytes: &[u8]) -> Result<Text, Misread>
    ensures { Gives (λ t. t) result (text_in bytes.now) }
{
    match Text::from_bytes(alloc, bytes) {
        Ok(text) => Ok(text),
        Err(TextFault::Memory) => Err(Misread::Memory),
        Err(TextFault::NotUtf8) => Err(Misread::Outside),
    }
}

fn is_name_start(byte: u8) -> bool
    ensures { result ≡ is_name_start byte }
{
    (byte >= b'a' && byte <= b'z') || (byte >= b'0' && byte <= b'9')
}

fn is_name_byte(byte: u8) -> bool
    ensures { result ≡ is_name_byte byte }
{
    is_name_start(byte) || byte == b'-' || byte == b'_'
}

fn are_name_bytes(word: &[u8]) -> bool
    ensures { result ≡ are_name_bytes word.now }
{
    for byte in word {
        if !is_name_byte(*byte) {
            return false;
        }
    }
    true
}

fn is_name(word: &[u8]) -> bool
    ensures { result ≡ is_name word.now }
{
    match word {
        [] => false,
        [first, ..] => is_name_start(*first) && are_name_bytes(word) && word.len() <= 64,
    }
}

/// A name of a room or a group.
pub(crate) fn read_name(alloc: Global, word: &[u8]) -> Result<Text, Misread>
    ensures { Gives (λ t. t) result (name_in word.now) }
{
    if !is_name(word) {
        return Err(Misread::Outside);
    }
    read_text(alloc, word)
}

/// A name, or `*`.
pub(crate) fn read_place(alloc: Global, word: &[u8]) -> Result<Text, Misread>
    ensures { Gives (λ t. t) result (place_in word.now) }
{
    if word == b"*".as_slice() {
        Ok(Text::from_str(alloc, "*")?)
    } else {
        read_name(alloc, word)
    }
}

/// A level, by its name.
pub(crate) fn read_level(word: &[u8]) -> Result<Level, Misread>
    ensures { Gives level_of result (level_in word.now) }
{
    if word == b"nothing".as_slice() {
        Ok(Level::Nothing)
    } else if word == b"read".as_slice() {
        Ok(Level::Read)
    } else if word == b"presence".as_slice() {
        Ok(Level::Presence)
    } else if word == b"write".as_slice() {
        Ok(Level::Write)
    } else {
        Err(Misread::Outside)
    }
}
