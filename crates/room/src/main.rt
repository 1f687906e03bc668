//! The program: does what the words behind its name say, on standard input and output and on the folder that they name.
#![tactic(auto)]

mod command;
#[cfg(test)]
mod tests;

use command::start;
use room_real::{Reading, Writing};
use room_tree::PlainTree;
use std::process::ExitCode;
use std::{env, io};

/// The words behind the program's name.
fn words_of(rt: &HostRuntime) -> io::Result<Vec<String>> {
    let mut words = Vec::new(rt.alloc());
    for word in env::args(rt)?.skip(1) {
        words.push(word)?;
    }
    Ok(words)
}

fn main(rt: HostRuntime) -> ExitCode {
    let mut source = Reading::new(rt.reader());
    let mut sink = Writing::new(io::writer(&rt));
    start::<PlainTree, _, _, _>(rt.alloc(), &rt, words_of(&rt), &mut source, &mut sink)
}
