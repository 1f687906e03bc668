//! The calls of the program, and what comes of them.
use crate::args::words_of;
use crate::broken::Broken;
use crate::edges::{Pieces, Taken, WHOLE, Way};
use room_case_disk::CaseDisk;
use room_fuse::Fused;
use room_json::Text;
use room_top::{run, wants};
use room_tree::PlainTree;
use std::alloc::Global;

/// The most bytes of a report that is shown whole.
const MOST: usize = 2000;

/// What a call wrote, and its status.
#[derive(Drop)]
pub(crate) struct Came {
    bytes: Vec<u8>,
    status: u8,
}

/// Lets the program do what the words say, over this disk and these bytes.
pub(crate) fn call(
    alloc: Global,
    disk: &mut CaseDisk,
    words: &str,
    input: &[u8],
    reads: Way,
    writes: Way,
) -> Result<Came, Broken> {
    let words = words_of(alloc, words)?;
    let mut bytes = Vec::new(alloc);
    bytes.extend_from_slice(input)?;
    let mut source = Pieces::new(bytes, reads);
    let mut sink = Taken::new(alloc, writes);
    let inner = std::mem::replace(disk, CaseDisk::new(alloc));
    let mut fused = Fused::new(alloc, inner);
    let status = run::<PlainTree, Pieces, Taken, CaseDisk>(
        alloc,
        words.as_slice(),
        &mut source,
        &mut sink,
        &mut fused,
    );
    *disk = std::mem::replace(&mut fused.inner, CaseDisk::new(alloc));
    let mut written = Vec::new(alloc);
    written.extend_from_slice(sink.bytes())?;
    Ok(Came {
        bytes: written,
        status,
    })
}

/// The same where neither the source nor the sink fails.
pub(crate) fn simply(
    alloc: Global,
    disk: &mut CaseDisk,
    words: &str,
    input: &[u8],
) -> Result<Came, Broken> {
    call(alloc, disk, words, input, WHOLE, WHOLE)
}

/// The bytes as digits of base 31, modulo 2^32.
fn sum(bytes: &[u8]) -> u32 {
    let mut sum = 0u32;
    for byte in bytes {
        sum = sum.wrapping_mul(31).wrapping_add(*byte as u32);
    }
    sum
}

/// How many bytes there are, and their sum.
pub(crate) fn measured(alloc: Global, bytes: &[u8]) -> Result<String, Broken> {
    Ok(format!(in alloc; "{} bytes, sum {}", bytes.len(), sum(bytes))?)
}

impl Came {
    /// The report, line by line, and the status.
    pub(crate) fn whole(&self, alloc: Global) -> Result<String, Broken> {
        let status = self.status;
        if self.bytes.len() > MOST {
            let text = measured(alloc, self.bytes.as_slice())?;
            return Ok(format!(in alloc; "{text}\nstatus {status}")?);
        }
        let text = Text::from_bytes(alloc, self.bytes.as_slice())?;
        Ok(format!(in alloc; "{}status {status}", text.as_str())?)
    }

    /// The status, and how long the report is.
    pub(crate) fn brief(&self, alloc: Global) -> Result<String, Broken> {
        let text = measured(alloc, self.bytes.as_slice())?;
        Ok(format!(in alloc; "status {}, {text}", self.status)?)
    }

    /// The status, and a report of one line.
    pub(crate) fn in_line(&self, alloc: Global) -> Result<String, Broken> {
        let text = Text::from_bytes(alloc, self.bytes.as_slice())?;
        Ok(format!(in alloc; "status {}, {}", self.status, text.as_str().trim_end())?)
    }
}

/// What is recovered of a disk.
pub(crate) fn shown(alloc: Global, disk: &mut CaseDisk) -> Result<String, Broken> {
    simply(alloc, disk, "show f", &[])?.in_line(alloc)
}

/// A word, or a dash where there is none.
fn or_dash(alloc: Global, word: &Option<Text>) -> Result<String, Broken> {
    match word {
        Some(word) => Ok(format!(in alloc; "{}", word.as_str())?),
        None => Ok(format!(in alloc; "-")?),
    }
}

/// What words want of the outside.
pub(crate) fn wanted(alloc: Global, words: &str) -> Result<String, Broken> {
    let words = words_of(alloc, words)?;
    let wants = wants(alloc, words.as_slice())?;
    let folder = or_dash(alloc, &wants.folder)?;
    let address = or_dash(alloc, &wants.address)?;
    let table = or_dash(alloc, &wants.table)?;
    let serves = wants.serves;
    Ok(format!(in alloc; "folder {folder}, address {address}, serves {serves}, table {table}")?)
}
