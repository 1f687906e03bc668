//! What stands in a case: words, numbers, and texts that are repeated.
ghost use Rattle.std.specs.Prelude.{◌≤◌, IfOk};
ghost use Rattle.room_log.specs.Follows.{most};

use crate::broken::Broken;
use room_disk::Stop;
use room_json::{MAX_WHOLE, Text};
use room_store::Limits;
use std::alloc::Global;

/// What stands before the first blank, and what behind it.
pub(crate) fn cut(line: &str) -> (&str, &str) {
    match line.split_once(' ') {
        Some(parts) => parts,
        None => (line, ""),
    }
}

/// The number that a word spells.
pub(crate) fn number(word: &str) -> Result<u64, Broken> {
    match word.parse::<u64>() {
        Ok(number) => Ok(number),
        Err(_) => Err(Broken::Number),
    }
}

/// The limits that two words spell.
pub(crate) fn limits(words: &str) -> Result<Limits, Broken>
    ensures { IfOk result (λ l. l.updates ≤ most) }
{
    let (updates, sessions) = cut(words);
    let updates = number(updates)?.min(MAX_WHOLE);
    match u32::try_from(number(sessions)?) {
        Ok(sessions) => Ok(Limits { updates, sessions }),
        Err(_) => Err(Broken::Number),
    }
}

/// A way to stop.
pub(crate) fn way(word: &str) -> Result<Stop, Broken> {
    match word {
        "old" => Ok(Stop::Old),
        "new" => Ok(Stop::New),
        "torn" => Ok(Stop::Torn),
        _ => Err(Broken::Line),
    }
}

/// Appends so many times a text, by a number and a text behind a blank.
fn push_many(text: &mut Text, words: &str) -> Result<(), Broken> {
    let (count, piece) = cut(words);
    for _ in 0..number(count)? {
        text.push_str(piece)?;
    }
    Ok(())
}

/// The text in which `%3 ab%` stands for `ababab`.
pub(crate) fn expanded(alloc: Global, line: &str) -> Result<Text, Broken> {
    let mut text = Text::new(alloc);
    let mut is_many = false;
    for piece in line.split('%') {
        if is_many {
            push_many(&mut text, piece)?;
        } else {
            text.push_str(piece)?;
        }
        is_many = !is_many;
    }
    Ok(text)
}

/// The lines that stand between `;`.
pub(crate) fn rows(alloc: Global, words: &str) -> Result<Text, Broken> {
    let mut text = Text::new(alloc);
    for row in words.split(';') {
        text.push_str(row)?;
        text.push_str("\n")?;
    }
    Ok(text)
}
