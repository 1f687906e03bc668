//! The bytes of files in memory, by their numbers.
ghost use Rattle.std.specs.Prelude.{◌≡◌, ◌==◌, ℕ, cond, OnOk, OnErr, IfErr};
ghost use Rattle.room_disk.specs.Changes.{changed};
ghost use Rattle.room_disk.specs.Files.{content_in};

use crate::change::FileChange;
use crate::disk::DiskFault;
use std::alloc::Global;
use std::collections::BTreeMap;

/// A file that isn't there is empty.
pub(crate) type Files = BTreeMap<u32, Vec<u8>>;

pub(crate) fn bytes_of(files: &Files, file: u32) -> &[u8]
    ensures { result.now ≡ content_in files.now file }
{
    match files.get(&file) {
        Some(bytes) => bytes.as_slice(),
        None => &[],
    }
}

/// Changes one file. A refused call changes nothing.
pub(crate) fn change_file(
    alloc: Global,
    files: &mut Files,
    file: u32,
    change: &FileChange,
) -> Result<(), DiskFault>
    ensures ok { OnOk result ((f : ℕ) → content_in files.new f
        ≡ cond (file == f) (changed change.now (content_in files.old f)) (content_in files.old f)) }
    ensures err { OnErr result ((f : ℕ) → content_in files.new f ≡ content_in files.old f) }
    ensures cause { IfErr result (λ e. e ≡ DiskFault.Memory) }
{
    if let Some(bytes) = files.get_mut(&file) {
        return change.apply(bytes);
    }
    let mut bytes = Vec::new(alloc);
    change.apply(&mut bytes)?;
    drop(files.insert(file, bytes)?);
    Ok(())
}
