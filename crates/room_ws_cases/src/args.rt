//! What stands behind a case's verb: words, numbers, bytes and texts.
use crate::broken::Broken;
use room_json::Text;
use std::alloc::Global;

/// What stands before the first blank, and what behind it.
pub(crate) fn cut(line: &str) -> (&str, &str) {
    match line.split_once(' ') {
        Some(parts) => parts,
        None => (line, ""),
    }
}

/// The number that a word spells.
pub(crate) fn number(word: &str) -> Result<u64, Broken> {
    match word.parse::<u64>() {
        Ok(number) => Ok(number),
        Err(_) => Err(Broken::Number),
    }
}

/// The bytes that a word of hex digits spells.
pub(crate) fn bytes(alloc: Global, word: &str) -> Result<Vec<u8>, Broken> {
    match hex::decode(alloc, word) {
        Ok(bytes) => Ok(bytes),
        Err(_) => Err(Broken::Hex),
    }
}

/// A text of these words.
pub(crate) fn text(alloc: Global, words: &str) -> Result<Text, Broken> {
    let mut text = Text::new(alloc);
    text.push_str(words)?;
    Ok(text)
}
