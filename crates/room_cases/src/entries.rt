//! Cases of `room_bytes`: entries and groups by their bytes.
use room_bytes::{Format, read_entry, read_group, write_entry, write_group};
use room_case_text::{Broken, bytes};
use room_json::{Bytes, Copied, NoMemory};
use std::alloc::Global;

/// What comes of a case of entries.
pub(crate) fn outcome(alloc: Global, verb: &str, rest: &str) -> Result<String, Broken> {
    let bytes = bytes(alloc, rest)?;
    match verb {
        "one" => told_of_old(alloc, bytes.as_slice()),
        "two" => told(
            alloc,
            bytes.as_slice(),
            entry_again(alloc, bytes.as_slice())?,
        ),
        "group" => told(
            alloc,
            bytes.as_slice(),
            group_again(alloc, bytes.as_slice())?,
        ),
        "changed" => spelled_once(alloc, bytes.as_slice()),
        _ => Err(Broken::Verb),
    }
}

/// What is written of the entry that is read of the bytes; nothing where none is.
fn entry_again(alloc: Global, bytes: &[u8]) -> Result<Option<Bytes>, NoMemory> {
    match read_entry(alloc, bytes, Format::Two)? {
        Some(entry) => Ok(Some(write_entry(alloc, &entry.copy(alloc)?)?)),
        None => Ok(None),
    }
}

/// The same of a group.
fn group_again(alloc: Global, bytes: &[u8]) -> Result<Option<Bytes>, NoMemory> {
    match read_group(alloc, bytes)? {
        Some(group) => Ok(Some(write_group(alloc, &group.copy(alloc)?)?)),
        None => Ok(None),
    }
}

/// Whether something was read, and the same bytes written.
fn told(alloc: Global, bytes: &[u8], written: Option<Bytes>) -> Result<String, Broken> {
    match written {
        Some(written) if written.as_slice() == bytes => Ok(format!(in alloc; "read")?),
        Some(_) => Ok(format!(in alloc; "read, and written in another way")?),
        None => Ok(format!(in alloc; "none")?),
    }
}

/// Whether an entry of the old format was read.
fn told_of_old(alloc: Global, bytes: &[u8]) -> Result<String, Broken> {
    match read_entry(alloc, bytes, Format::One)? {
        Some(_) => Ok(format!(in alloc; "read")?),
        None => Ok(format!(in alloc; "none")?),
    }
}

/// How many of the fronts of the bytes are an entry.
fn fronts(alloc: Global, bytes: &[u8]) -> Result<u64, NoMemory> {
    let mut count = 0u64;
    for end in 0..bytes.len() {
        if read_entry(alloc, &bytes[..end], Format::Two)?.is_some() {
            count = count.saturating_add(1);
        }
    }
    Ok(count)
}

/// The bytes with one of them changed.
fn changed(alloc: Global, bytes: &[u8], at: usize, byte: u8) -> Result<Vec<u8>, Broken> {
    let mut copy = bytes.to_vec(alloc)?;
    if at < copy.len() {
        copy[at] = byte;
    }
    Ok(copy)
}

/// How often the bytes, with one changed to this one, are an entry that is written in another way.
fn twice(alloc: Global, bytes: &[u8], byte: u8) -> Result<u64, Broken> {
    let mut count = 0u64;
    for at in 0..bytes.len() {
        let copy = changed(alloc, bytes, at, byte)?;
        if let Some(written) = entry_again(alloc, copy.as_slice())? {
            if written.as_slice() != copy.as_slice() {
                count = count.saturating_add(1);
            }
        }
    }
    Ok(count)
}

/// Of the bytes' fronts how many are an entry, and with a byte changed to 0, 1 or 255, how many have another spelling.
fn spelled_once(alloc: Global, bytes: &[u8]) -> Result<String, Broken> {
    let fronts = fronts(alloc, bytes)?;
    let (low, one, high) = (
        twice(alloc, bytes, 0)?,
        twice(alloc, bytes, 1)?,
        twice(alloc, bytes, 255)?,
    );
    Ok(format!(in alloc; "{fronts} fronts, {low} {one} {high} spelled twice")?)
}
