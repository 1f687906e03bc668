//! Why a room is served no longer.
ghost use Rattle.std.specs.Prelude.{◌≡◌};
ghost use Rattle.room_turns.specs.Faults.{of_server, of_store, IsOfOpening, IsOfTurn};
ghost use Rattle.room_turns.specs.declared.fault.ServeFault.TheVariants.{Memory};

use room_json::NoMemory;
use room_server::ServerFault;
use room_store::StoreFault;
use thiserror::Error;

/// Why a room is served no longer.
#[derive(Clone, Copy, Debug, PartialEq, Eq, Error)]
pub enum ServeFault {
    /// Out of memory.
    #[error("out of memory")]
    Memory,
    /// The disk failed.
    #[error("the disk failed")]
    Disk,
    /// The hub failed.
    #[error("the hub failed")]
    Hub,
    /// The files hold no room: this file is damaged at this offset.
    #[error("file {0} is damaged at {1}")]
    Damaged(u32, u64),
}

impl From<NoMemory> for ServeFault {
    ghost from_gives = { λ _ v. v ≡ Memory };

    fn from(_e: NoMemory) -> ServeFault {
        ServeFault::Memory
    }
}

/// What a fault of a turn or a compaction becomes. A server that is served isn't broken.
pub(crate) fn of_server(fault: ServerFault) -> ServeFault
    ensures becomes { result ≡ of_server fault }
    ensures of_turn { IsOfTurn result }
{
    match fault {
        ServerFault::Broken(_) => ServeFault::Memory,
        ServerFault::Memory => ServeFault::Memory,
        ServerFault::Disk => ServeFault::Disk,
    }
}

/// What a fault of a recovery becomes; the others are of plannings and of a store that is broken.
pub(crate) fn of_store(fault: StoreFault) -> ServeFault
    ensures becomes { result ≡ of_store fault }
    ensures of_opening { IsOfOpening result }
{
    match fault {
        StoreFault::Disk => ServeFault::Disk,
        StoreFault::Damaged(file, at) => ServeFault::Damaged(file, at),
        _ => ServeFault::Memory,
    }
}
