//! What stands in a case: words, and texts that are repeated.
use crate::broken::Broken;
use room_ids::read_number;
use room_json::{MAX_WHOLE, Text};
use std::alloc::Global;

/// What stands before the first blank, and what behind it.
pub(crate) fn cut(line: &str) -> (&str, &str) {
    match line.split_once(' ') {
        Some(parts) => parts,
        None => (line, ""),
    }
}

/// Appends so many times a text, by a number and a text behind a blank.
fn push_many(text: &mut Text, words: &str) -> Result<(), Broken> {
    let (count, piece) = cut(words);
    let Some(count) = read_number(count.as_bytes(), MAX_WHOLE) else {
        return Err(Broken::Number);
    };
    for _ in 0..count {
        text.push_str(piece)?;
    }
    Ok(())
}

/// The text in which `%3 ab%` stands for `ababab`.
pub(crate) fn expanded(alloc: Global, line: &str) -> Result<Text, Broken> {
    let mut text = Text::new(alloc);
    let mut is_many = false;
    for piece in line.split('%') {
        if is_many {
            push_many(&mut text, piece)?;
        } else {
            text.push_str(piece)?;
        }
        is_many = !is_many;
    }
    Ok(text)
}
