//! Runs cases: reads words from standard input, a call on each line, and writes each with the command that they spell.
#![tactic(auto)]

mod told;

use room_json::NoMemory;
use room_words::command_of;
use std::alloc::Global;
use told::told;

/// The words that a line has; `''` stands for an empty one.
fn words_of(alloc: Global, line: &str) -> Result<Vec<String>, NoMemory> {
    let mut words = Vec::new(alloc);
    for word in line.split_whitespace() {
        let word = if word == "''" { "" } else { word };
        words.push(String::from_str(alloc, word)?)?;
    }
    Ok(words)
}

/// The line that is written of a line: blank ones and comments as they are; behind `call` stand the words of a call.
fn report(alloc: Global, line: &str) -> Result<String, NoMemory> {
    let Some(words) = line.strip_prefix("call") else {
        return Ok(format!(in alloc; "{line}")?);
    };
    let words = words_of(alloc, words)?;
    match command_of(alloc, words.as_slice())? {
        Some(command) => Ok(format!(in alloc; "{line} => {}", told(alloc, command)?)?),
        None => Ok(format!(in alloc; "{line} => no command")?),
    }
}

fn main(rt: HostRuntime) -> anyhow::Result<()> {
    for line in rt.lines(rt.alloc()) {
        let text = report(rt.alloc(), line?.as_str())?;
        println!(rt; "{text}")?;
    }
    Ok(())
}
