//! Why a call of a server was not done.
ghost use Rattle.std.specs.Prelude.{◌≡◌};
ghost use Rattle.room_server.specs.declared.fault.ServerFault.TheVariants.{Memory};
ghost use Rattle.room_server.specs.Faults.{as_server};

use room_json::NoMemory;
use room_store::{Cause, StoreFault};
use thiserror::Error;

/// Why a call of a server was not done.
#[derive(Clone, Copy, Debug, PartialEq, Eq, Error)]
pub enum ServerFault {
    /// The server was broken before, for that cause. The room has to be recovered again.
    #[error("broken: {0}")]
    Broken(Cause),
    /// Out of memory.
    #[error("out of memory")]
    Memory,
    /// The disk failed.
    #[error("the disk failed")]
    Disk,
}

impl From<NoMemory> for ServerFault {
    ghost from_gives = { λ _ v. v ≡ Memory };

    fn from(_e: NoMemory) -> ServerFault {
        ServerFault::Memory
    }
}

/// What a fault of a commit or a compaction becomes; the others are of plannings and of a recovery.
pub fn as_server(fault: StoreFault) -> ServerFault
    ensures { result ≡ as_server fault }
{
    match fault {
        StoreFault::Broken(cause) => ServerFault::Broken(cause),
        StoreFault::Disk => ServerFault::Disk,
        _ => ServerFault::Memory,
    }
}
