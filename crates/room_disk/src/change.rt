//! What a write or a cut does to a file.
ghost use Rattle.std.specs.Prelude.{◌≡◌, ◌≤◌, ◌<◌, ℕ, List, ◌+◌, ◌^◌, ◌↔◌, IsTrue, IfOk, IfErr, OnOk, OnErr, length};
ghost use Rattle.room_disk.specs.Model.{written};
ghost use Rattle.room_disk.specs.Changes.{changed, reach};
ghost use Rattle.room_disk.specs.declared.change.FileChange.TheVariants.{Write};

use crate::disk::DiskFault;
use room_json::Bytes;
use std::alloc::Global;

/// A write at an offset, or a cut to a length.
#[derive(Drop)]
pub enum FileChange {
    Write(u64, Bytes),
    Cut(u64),
}

impl FileChange {
    /// The write of a copy of these bytes.
    pub fn writing(alloc: Global, at: u64, bytes: &[u8]) -> Result<FileChange, DiskFault>
        ensures ok { IfOk result (λ x. x ≡ Write at bytes.now) }
        ensures cause { IfErr result (λ e. e ≡ DiskFault.Memory) }
    {
        Ok(FileChange::Write(at, Bytes::from_vec(bytes.to_vec(alloc)?)))
    }

    /// The length that it gives a file of this length.
    pub fn length_after(&self, len: u64) -> u64
        requires { reach self.now < 2 ^ 62 }
        ensures length { (old : List ℕ) → length old ≡ len → result ≡ length (changed self.now old) }
        ensures bound { len < 2 ^ 62 → result < 2 ^ 62 }
    {
        match self {
            FileChange::Write(at, piece) => len.max((*at).min(len) + piece.len()),
            FileChange::Cut(to) => len.min(*to),
        }
    }

    /// Changes the bytes of a file. A refused call changes nothing.
    pub fn apply(&self, bytes: &mut Vec<u8>) -> Result<(), DiskFault>
        ensures ok { OnOk result (bytes.new.items ≡ changed self.now bytes.old.items) }
        ensures err { OnErr result (bytes.new.items ≡ bytes.old.items) }
        ensures cause { IfErr result (λ e. e ≡ DiskFault.Memory) }
    {
        match self {
            FileChange::Write(at, piece) => overwrite(bytes, *at as usize, piece.as_slice()),
            FileChange::Cut(len) => {
                bytes.truncate(*len as usize);
                Ok(())
            }
        }
    }
}

/// Whether a write would give a file 2^62 bytes or more.
pub fn is_past_bound(at: u64, bytes: &[u8]) -> bool
    ensures { IsTrue result ↔ (2 ^ 62 ≤ at + length bytes.now) }
{
    at >= 1 << 62 || bytes.len() as u64 >= (1 << 62) - at
}

/// Writes over what stands there and past the end; at the end where the bytes don't reach so far.
fn overwrite(bytes: &mut Vec<u8>, at: usize, piece: &[u8]) -> Result<(), DiskFault>
    ensures ok { OnOk result (bytes.new.items ≡ written at piece.now bytes.old.items) }
    ensures err { OnErr result (bytes.new.items ≡ bytes.old.items) }
    ensures cause { IfErr result (λ e. e ≡ DiskFault.Memory) }
{
    let at = at.min(bytes.len());
    let over = piece.len().min(bytes.len() - at);
    bytes.extend_from_slice(&piece[over..])?;
    bytes.as_mut_slice()[at..at + over].copy_from_slice(&piece[..over]);
    Ok(())
}
