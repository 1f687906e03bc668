//! The files of the disk: they are put, shown, cut and changed.
use crate::args::{byte, bytes, cut, number, small};
use crate::broken::Broken;
use crate::calls::{measured, shown};
use crate::runs::Runs;
use room_case_disk::CaseDisk;
use room_disk::{Disk, put_down};
use std::alloc::Global;

/// The most bytes of a file that is shown whole.
const MOST: usize = 400;

/// The bytes of a file.
fn content(alloc: Global, disk: &mut CaseDisk, file: u32) -> Result<Vec<u8>, Broken> {
    let len = disk.len(file)?;
    let mut all = Vec::new(alloc);
    all.resize(len as usize, 0u8)?;
    disk.read(file, 0, all.as_mut_slice())?;
    Ok(all)
}

/// A file gets other bytes.
fn put(disk: &mut CaseDisk, file: u32, bytes: &[u8]) -> Result<(), Broken> {
    disk.cut(file, 0)?;
    put_down(disk, file, 0, bytes)?;
    Ok(())
}

/// How many bytes a file has, and which.
fn told(alloc: Global, disk: &mut CaseDisk, file: u32) -> Result<String, Broken> {
    let all = content(alloc, disk, file)?;
    if all.len() > MOST {
        return measured(alloc, all.as_slice());
    }
    let digits = hex::encode(alloc, all.as_slice())?;
    Ok(format!(in alloc; "{}:{}", all.len(), digits.as_str())?)
}

/// Both files.
pub(crate) fn both(alloc: Global, disk: &mut CaseDisk) -> Result<String, Broken> {
    let first = told(alloc, disk, 0)?;
    let second = told(alloc, disk, 1)?;
    Ok(format!(in alloc; "{first} {second}")?)
}

/// A file, by its number and its bytes.
pub(crate) fn given(alloc: Global, disk: &mut CaseDisk, words: &str) -> Result<(), Broken> {
    let (file, digits) = cut(words);
    let all = bytes(alloc, digits)?;
    put(disk, small(file)?, all.as_slice())
}

/// The second file gets the bytes of the first.
pub(crate) fn copied(alloc: Global, disk: &mut CaseDisk) -> Result<(), Broken> {
    let all = content(alloc, disk, 0)?;
    put(disk, 1, all.as_slice())
}

/// What is recovered where the first file has these bytes, and the second is empty.
fn recovered(alloc: Global, first: &[u8]) -> Result<String, Broken> {
    let mut disk = CaseDisk::new(alloc);
    put(&mut disk, 0, first)?;
    shown(alloc, &mut disk)
}

/// What is recovered of the first file, cut to each of its lengths.
pub(crate) fn lengths(alloc: Global, disk: &mut CaseDisk) -> Result<String, Broken> {
    let whole = content(alloc, disk, 0)?;
    let mut runs = Runs::new(alloc);
    for len in 0..=whole.len() {
        let text = recovered(alloc, &whole[..len])?;
        runs.add(alloc, len as u64, text)?;
    }
    runs.end(alloc)
}

/// What is recovered of the first file with each of its bytes replaced by another.
pub(crate) fn changed(alloc: Global, disk: &mut CaseDisk, words: &str) -> Result<String, Broken> {
    let byte = byte(words)?;
    let mut whole = content(alloc, disk, 0)?;
    let mut runs = Runs::new(alloc);
    for at in 0..whole.len() {
        let was = whole[at];
        whole[at] = byte;
        let text = recovered(alloc, whole.as_slice())?;
        runs.add(alloc, at as u64, text)?;
        whole[at] = was;
    }
    runs.end(alloc)
}

/// One byte of a file is replaced, by its number, the place and the byte.
pub(crate) fn poked(alloc: Global, disk: &mut CaseDisk, words: &str) -> Result<(), Broken> {
    let (file, rest) = cut(words);
    let (at, other) = cut(rest);
    let file = small(file)?;
    let at = number(at)? as usize;
    let other = byte(other)?;
    let mut whole = content(alloc, disk, file)?;
    if at >= whole.len() {
        return Err(Broken::Number);
    }
    whole[at] = other;
    put(disk, file, whole.as_slice())
}
