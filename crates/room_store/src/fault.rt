//! Why a call of a store was not done.
ghost use Rattle.std.specs.Prelude.{◌≡◌};
ghost use Rattle.room_store.specs.declared.fault.StoreFault.TheVariants.{Memory};
ghost use Rattle.room_store.specs.Faults.{as_store, told, cause_in};

use room_journal::JournalFault;
use room_json::NoMemory;
use thiserror::Error;

/// What broke a store: a fault of its disk, or that its disk was out of memory.
#[derive(Clone, Copy, Debug, PartialEq, Eq, Error)]
pub enum Cause {
    #[error("the disk failed before")]
    Disk,
    #[error("the disk was out of memory before")]
    Memory,
}

/// Why a call of a store was not done.
#[derive(Clone, Copy, Debug, PartialEq, Eq, Error)]
pub enum StoreFault {
    /// The store was broken before, for that cause. The room has to be recovered again.
    #[error("broken: {0}")]
    Broken(Cause),
    /// Out of memory.
    #[error("out of memory")]
    Memory,
    /// The disk failed.
    #[error("the disk failed")]
    Disk,
    /// The files hold no room: this file is damaged at this offset.
    #[error("file {0} is damaged at {1}")]
    Damaged(u32, u64),
    /// The clocks have a gap: one was expected, and another came.
    #[error("clock {1} came where {0} was expected")]
    Gap(u64, u64),
    /// The room has so many updates, and may have no more.
    #[error("the room is full with {0} updates")]
    Full(u64),
    /// The room has so many sessions, and may have no more.
    #[error("the room is full with {0} sessions")]
    SessionsFull(u32),
}

impl From<NoMemory> for StoreFault {
    ghost from_gives = { λ _ v. v ≡ Memory };

    fn from(_e: NoMemory) -> StoreFault {
        StoreFault::Memory
    }
}

/// What a fault of the journal becomes.
pub fn as_store(fault: JournalFault) -> StoreFault
    ensures { result ≡ as_store fault }
{
    match fault {
        JournalFault::Memory => StoreFault::Memory,
        JournalFault::Disk => StoreFault::Disk,
        JournalFault::Damaged(file, at) => StoreFault::Damaged(file, at),
    }
}

/// What an answer of the journal becomes.
pub fn told(answer: Result<(), JournalFault>) -> Result<(), StoreFault>
    ensures { result ≡ told answer }
{
    match answer {
        Ok(()) => Ok(()),
        Err(fault) => Err(as_store(fault)),
    }
}

/// By what an answer of the journal breaks a store.
pub fn cause_in(answer: &Result<(), JournalFault>) -> Option<Cause>
    ensures { result ≡ cause_in answer.now }
{
    match answer {
        Ok(()) => None,
        Err(JournalFault::Memory) => Some(Cause::Memory),
        Err(JournalFault::Disk) => Some(Cause::Disk),
        Err(JournalFault::Damaged(_, _)) => Some(Cause::Disk),
    }
}
