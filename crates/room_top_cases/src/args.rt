//! What stands in a case: words, numbers and bytes.
use crate::broken::Broken;
use room_disk::Stop;
use std::alloc::Global;

/// What stands before the first blank, and what behind it.
pub(crate) fn cut(line: &str) -> (&str, &str) {
    match line.split_once(' ') {
        Some(parts) => parts,
        None => (line, ""),
    }
}

/// The number that a word spells.
pub(crate) fn number(word: &str) -> Result<u64, Broken> {
    match word.parse::<u64>() {
        Ok(number) => Ok(number),
        Err(_) => Err(Broken::Number),
    }
}

/// The same below 2^32.
pub(crate) fn small(word: &str) -> Result<u32, Broken> {
    match u32::try_from(number(word)?) {
        Ok(number) => Ok(number),
        Err(_) => Err(Broken::Number),
    }
}

/// The same below 256.
pub(crate) fn byte(word: &str) -> Result<u8, Broken> {
    match u8::try_from(number(word)?) {
        Ok(number) => Ok(number),
        Err(_) => Err(Broken::Number),
    }
}

/// The bytes that hex digits spell; a dash is no bytes.
pub(crate) fn bytes(alloc: Global, word: &str) -> Result<Vec<u8>, Broken> {
    if word == "-" {
        return Ok(Vec::new(alloc));
    }
    match hex::decode(alloc, word) {
        Ok(all) => Ok(all),
        Err(_) => Err(Broken::Hex),
    }
}

/// A way to stop.
pub(crate) fn way(word: &str) -> Result<Stop, Broken> {
    match word {
        "old" => Ok(Stop::Old),
        "new" => Ok(Stop::New),
        "torn" => Ok(Stop::Torn),
        _ => Err(Broken::Verb),
    }
}

/// The words of a call; `''` stands for an empty one.
pub(crate) fn words_of(alloc: Global, line: &str) -> Result<Vec<String>, Broken> {
    let mut words = Vec::new(alloc);
    for word in line.split_whitespace() {
        let word = if word == "''" { "" } else { word };
        words.push(String::from_str(alloc, word)?)?;
    }
    Ok(words)
}
