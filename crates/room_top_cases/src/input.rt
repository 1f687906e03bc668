//! A case of several lines: what is done, and the bytes that it reads.
use crate::args::{bytes, cut, number};
use crate::broken::Broken;
use std::alloc::Global;

/// The line that begins a case, and the bytes of the lines behind it.
#[derive(Drop)]
pub(crate) struct Block {
    pub(crate) head: String,
    pub(crate) bytes: Vec<u8>,
}

/// Appends so many times a text, by a number and a text behind a blank.
fn push_many(into: &mut Vec<u8>, words: &str) -> Result<(), Broken> {
    let (count, piece) = cut(words);
    for _ in 0..number(count)? {
        into.extend_from_slice(piece.as_bytes())?;
    }
    Ok(())
}

/// Appends a text in which `%3 ab%` stands for `ababab`.
fn push_expanded(into: &mut Vec<u8>, line: &str) -> Result<(), Broken> {
    let mut is_many = false;
    for piece in line.split('%') {
        if is_many {
            push_many(into, piece)?;
        } else {
            into.extend_from_slice(piece.as_bytes())?;
        }
        is_many = !is_many;
    }
    Ok(())
}

impl Block {
    /// A case without lines so far.
    pub(crate) fn new(alloc: Global, head: &str) -> Result<Block, Broken> {
        Ok(Block {
            head: String::from_str(alloc, head)?,
            bytes: Vec::new(alloc),
        })
    }

    /// One more line of its input. Behind `hex` stand bytes as digits, behind `many` and `part` a text with repeats; behind
    /// `hex` and `part` no line ends.
    pub(crate) fn add(&mut self, alloc: Global, line: &str) -> Result<(), Broken> {
        if let Some(digits) = line.strip_prefix("hex ") {
            let piece = bytes(alloc, digits)?;
            self.bytes.extend_from_slice(piece.as_slice())?;
            return Ok(());
        }
        if let Some(text) = line.strip_prefix("part ") {
            return push_expanded(&mut self.bytes, text);
        }
        match line.strip_prefix("many ") {
            Some(text) => push_expanded(&mut self.bytes, text)?,
            None => self.bytes.extend_from_slice(line.as_bytes())?,
        }
        self.bytes.push(b'\n')?;
        Ok(())
    }
}
