//! What cases act on: a disk, and a case whose lines are still to come.
use crate::args::cut;
use crate::broken::Broken;
use crate::calls::{shown, simply, wanted};
use crate::faults::fails;
use crate::files;
use crate::input::Block;
use room_case_disk::CaseDisk;
use std::alloc::Global;

/// The disk as the last case left it, and the case that has begun.
#[derive(Drop)]
pub(crate) struct Scene {
    disk: CaseDisk,
    block: Option<Block>,
}

/// Whether further lines belong to a case.
fn begins_block(name: &str) -> bool {
    matches!(name, "run" | "again" | "fails")
}

impl Scene {
    /// An empty disk, and no case.
    pub(crate) fn new(alloc: Global) -> Scene {
        Scene {
            disk: CaseDisk::new(alloc),
            block: None,
        }
    }

    /// What comes of a case with its lines.
    fn end(&mut self, alloc: Global, block: &Block) -> Result<String, Broken> {
        let (name, words) = cut(block.head.as_str());
        let input = block.bytes.as_slice();
        match name {
            "run" => {
                self.disk = CaseDisk::new(alloc);
                simply(alloc, &mut self.disk, words, input)?.whole(alloc)
            },
            "again" => simply(alloc, &mut self.disk, words, input)?.whole(alloc),
            "fails" => fails(alloc, words, input),
            _ => Err(Broken::Verb),
        }
    }

    /// What comes of a case of one line.
    fn act(&mut self, alloc: Global, case: &str) -> Result<String, Broken> {
        let (name, rest) = cut(case);
        let disk = &mut self.disk;
        match name {
            "wants" => return wanted(alloc, rest),
            "show" => return shown(alloc, disk),
            "files" => return files::both(alloc, disk),
            "lengths" => return files::lengths(alloc, disk),
            "bytes" => return files::changed(alloc, disk, rest),
            "calls" => return Ok(format!(in alloc; "{}", disk.changes())?),
            "disk" => *disk = CaseDisk::new(alloc),
            "file" => files::given(alloc, disk, rest)?,
            "copy" => files::copied(alloc, disk)?,
            "poke" => files::poked(alloc, disk, rest)?,
            _ => return Err(Broken::Verb),
        }
        Ok(format!(in alloc; "ok")?)
    }

    /// One more line; what is to be written of it, where there is something. Blank lines and comments are written as
    /// they are, a case of one line with what comes of it, and a case of several lines once it has ended.
    pub(crate) fn line(&mut self, alloc: Global, line: &str) -> Result<Option<String>, Broken> {
        if let Some(block) = &mut self.block {
            if line != "end" {
                block.add(alloc, line)?;
                return Ok(None);
            }
        }
        if let Some(block) = self.block.take() {
            let text = told(alloc, self.end(alloc, &block))?;
            return Ok(Some(format!(in alloc; "{}\n{text}", block.head.as_str())?));
        }
        if line.is_empty() || line.starts_with('#') {
            return Ok(Some(format!(in alloc; "{line}")?));
        }
        if begins_block(cut(line).0) {
            self.block = Some(Block::new(alloc, line)?);
            return Ok(None);
        }
        let text = told(alloc, self.act(alloc, line))?;
        Ok(Some(format!(in alloc; "{line} => {text}")?))
    }
}

/// What came of a case, or why nothing did.
fn told(alloc: Global, answer: Result<String, Broken>) -> Result<String, Broken> {
    match answer {
        Ok(text) => Ok(text),
        Err(Broken::Memory) => Err(Broken::Memory),
        Err(broken) => Ok(format!(in alloc; "{broken}")?),
    }
}
