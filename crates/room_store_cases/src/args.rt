//! What stands behind a case's command: words, numbers and bytes.
use crate::broken::Broken;
use room_disk::Stop;
use room_ids::read_number;
use room_json::MAX_WHOLE;
use std::alloc::Global;

/// What stands before the first mark, and what behind it.
pub(crate) fn cut(line: &str, mark: char) -> (&str, &str) {
    match line.split_once(mark) {
        Some(parts) => parts,
        None => (line, ""),
    }
}

/// The number that a text spells, at most 2^53-1.
pub(crate) fn number(text: &str) -> Result<u64, Broken> {
    match read_number(text.as_bytes(), MAX_WHOLE) {
        Some(number) => Ok(number),
        None => Err(Broken::Number),
    }
}

/// The same below 2^32.
pub(crate) fn small(text: &str) -> Result<u32, Broken> {
    match u32::try_from(number(text)?) {
        Ok(number) => Ok(number),
        Err(_) => Err(Broken::Number),
    }
}

/// The bytes that hex digits spell; a dash is no bytes.
pub(crate) fn bytes(alloc: Global, word: &str) -> Result<Vec<u8>, Broken> {
    if word == "-" {
        return Ok(Vec::new(alloc));
    }
    match hex::decode(alloc, word) {
        Ok(all) => Ok(all),
        Err(_) => Err(Broken::Hex),
    }
}

/// A way to stop.
pub(crate) fn way(word: &str) -> Result<Stop, Broken> {
    match word {
        "old" => Ok(Stop::Old),
        "new" => Ok(Stop::New),
        "torn" => Ok(Stop::Torn),
        _ => Err(Broken::Verb),
    }
}
