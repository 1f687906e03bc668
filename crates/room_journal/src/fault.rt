//! Why a call of a journal was not done.
ghost use Rattle.std.specs.Prelude.{◌≡◌};
ghost use Rattle.room_journal.specs.declared.fault.JournalFault.TheVariants.{Memory};
ghost use Rattle.room_journal.specs.Causes.{fault_of};

use room_disk::DiskFault;
use room_json::NoMemory;
use std::alloc::{AllocError, AllocFailed};
use std::error::Error;
use std::fmt;

/// Why a call of a journal was not done.
#[derive(Clone, Copy, Debug, PartialEq, Eq)]
pub enum JournalFault {
    /// Out of memory.
    Memory,
    /// The disk failed.
    Disk,
    /// No room can be read: this file is damaged at this offset.
    Damaged(u32, u64),
}

impl fmt::Display for JournalFault {
    fn fmt<W: fmt::Write>(&self, f: &mut fmt::Formatter<W>) -> fmt::Result {
        match self {
            JournalFault::Memory => f.write_str("out of memory"),
            JournalFault::Disk => f.write_str("the disk failed"),
            JournalFault::Damaged(file, at) => write!(f, "file {} is damaged at {}", file, at),
        }
    }
}

impl Error for JournalFault {}

impl From<AllocError> for JournalFault {
    ghost from_gives = { λ _ v. v ≡ Memory };

    fn from(_e: AllocError) -> JournalFault {
        JournalFault::Memory
    }
}

impl<T: Drop> From<AllocFailed<T>> for JournalFault {
    ghost from_gives = { λ _ v. v ≡ Memory };

    fn from(_e: AllocFailed<T>) -> JournalFault {
        JournalFault::Memory
    }
}

impl From<NoMemory> for JournalFault {
    ghost from_gives = { λ _ v. v ≡ Memory };

    fn from(_e: NoMemory) -> JournalFault {
        JournalFault::Memory
    }
}

impl From<DiskFault> for JournalFault {
    ghost from_gives = { λ e v. v ≡ fault_of e };

    fn from(fault: DiskFault) -> JournalFault {
        match fault {
            DiskFault::Memory => JournalFault::Memory,
            DiskFault::Failed => JournalFault::Disk,
        }
    }
}
