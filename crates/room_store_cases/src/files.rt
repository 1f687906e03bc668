//! The two files of a room, of any bytes.
use crate::args::{bytes, cut, small};
use crate::broken::Broken;
use crate::life::live;
use crate::runs::Runs;
use room_case_disk::CaseDisk;
use room_disk::{Disk, put_down};
use std::alloc::Global;

/// The bytes of both files.
#[derive(Drop)]
pub(crate) struct Files {
    first: Vec<u8>,
    second: Vec<u8>,
}

impl Files {
    /// The files that two words spell, and what stands behind these.
    pub(crate) fn read(alloc: Global, line: &str) -> Result<(Files, &str), Broken> {
        let (first, rest) = cut(line, ' ');
        let (second, rest) = cut(rest, ' ');
        let first = bytes(alloc, first)?;
        let second = bytes(alloc, second)?;
        Ok((Files { first, second }, rest))
    }

    /// A disk with these files.
    pub(crate) fn disk(&self, alloc: Global) -> Result<CaseDisk, Broken> {
        disk_of(alloc, self.first.as_slice(), self.second.as_slice())
    }
}

fn disk_of(alloc: Global, first: &[u8], second: &[u8]) -> Result<CaseDisk, Broken> {
    let mut disk = CaseDisk::new(alloc);
    put(&mut disk, 0, first)?;
    put(&mut disk, 1, second)?;
    Ok(disk)
}

/// Puts bytes into an empty file; a file without any isn't touched.
fn put(disk: &mut CaseDisk, file: u32, bytes: &[u8]) -> Result<(), Broken> {
    if !bytes.is_empty() {
        put_down(disk, file, 0, bytes)?;
    }
    Ok(())
}

/// How many bytes a file has, and which.
fn content(alloc: Global, disk: &mut CaseDisk, file: u32) -> Result<String, Broken> {
    let len = disk.len(file)?;
    let mut all = Vec::new(alloc);
    all.resize(len as usize, 0u8)?;
    disk.read(file, 0, all.as_mut_slice())?;
    let digits = hex::encode(alloc, all.as_slice())?;
    Ok(format!(in alloc; "{len}:{}", digits.as_str())?)
}

/// The steps on files of these bytes, and the files behind them.
pub(crate) fn lived(alloc: Global, line: &str) -> Result<String, Broken> {
    let (files, steps) = Files::read(alloc, line)?;
    let mut disk = files.disk(alloc)?;
    let text = live(alloc, &mut disk, steps)?;
    let first = content(alloc, &mut disk, 0)?;
    let second = content(alloc, &mut disk, 1)?;
    Ok(format!(in alloc; "{text} | {first} {second}")?)
}

/// What is recovered of a first file.
fn recovered(alloc: Global, first: &[u8]) -> Result<String, Broken> {
    let mut disk = disk_of(alloc, first, &[])?;
    live(alloc, &mut disk, "show")
}

/// What is recovered of a first file that was cut to each of its lengths.
pub(crate) fn cut_short(alloc: Global, line: &str) -> Result<String, Broken> {
    let whole = bytes(alloc, line)?;
    let mut runs = Runs::new(alloc);
    for len in 0..=whole.len() {
        let text = recovered(alloc, &whole[..len])?;
        runs.add(alloc, len as u64, text)?;
    }
    runs.end(alloc)
}

/// What is recovered of a first file with each of its bytes replaced by another.
pub(crate) fn changed(alloc: Global, line: &str) -> Result<String, Broken> {
    let (byte, rest) = cut(line, ' ');
    let Ok(byte) = u8::try_from(small(byte)?) else {
        return Err(Broken::Number);
    };
    let mut whole = bytes(alloc, rest)?;
    let mut runs = Runs::new(alloc);
    for at in 0..whole.len() {
        let was = whole[at];
        whole[at] = byte;
        let text = recovered(alloc, whole.as_slice())?;
        runs.add(alloc, at as u64, text)?;
        whole[at] = was;
    }
    runs.end(alloc)
}
