//! The lines that are written of cases, and long texts.
use crate::missing::Broken;
use room_json::{NoMemory, Text};
use std::alloc::Global;

/// Whether a line is a case, and no blank one or comment.
pub fn is_case(line: &str) -> bool {
    !line.is_empty() && !line.starts_with('#')
}

/// The line that is written of a case: itself, and what comes of it.
pub fn said(alloc: Global, line: &str, outcome: Result<String, Broken>) -> Result<String, Broken> {
    match outcome {
        Ok(text) => Ok(format!(in alloc; "{line} => {text}")?),
        Err(Broken::Memory) => Err(Broken::Memory),
        Err(broken) => Ok(format!(in alloc; "{line} => {broken}")?),
    }
}

/// So many `~`.
pub fn tildes(alloc: Global, count: u64) -> Result<Text, NoMemory> {
    let mut text = Text::new(alloc);
    for _ in 0..count {
        text.push_str("~")?;
    }
    Ok(text)
}
