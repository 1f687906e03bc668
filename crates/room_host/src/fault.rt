//! Why a call of a host was not done.
ghost use Rattle.std.specs.Prelude.{◌≡◌};
ghost use Rattle.room_host.specs.declared.fault.HostFault.TheVariants.{Memory};
ghost use Rattle.room_host.specs.Faults.{of_disk, of_server, of_store, IsWhole};

use room_disk::DiskFault;
use room_json::NoMemory;
use room_server::ServerFault;
use room_store::StoreFault;
use thiserror::Error;

/// Why a call of a host was not done. A stop of its disk is no fault.
#[derive(Clone, Copy, Debug, PartialEq, Eq, Error)]
pub enum HostFault {
    /// Out of memory.
    #[error("out of memory")]
    Memory,
    /// The inner disk failed.
    #[error("the disk failed")]
    Disk,
    /// The files hold no room: this file is damaged at this offset.
    #[error("file {0} is damaged at {1}")]
    Damaged(u32, u64),
}

impl From<NoMemory> for HostFault {
    ghost from_gives = { λ _ v. v ≡ Memory };

    fn from(_e: NoMemory) -> HostFault {
        HostFault::Memory
    }
}

/// What a fault of a disk becomes.
pub fn of_disk(fault: DiskFault) -> HostFault
    ensures becomes { result ≡ of_disk fault }
    ensures whole { IsWhole result }
{
    match fault {
        DiskFault::Memory => HostFault::Memory,
        DiskFault::Failed => HostFault::Disk,
    }
}

/// What a fault of a frame or a compaction becomes. A server that runs isn't broken.
pub fn of_server(fault: ServerFault) -> HostFault
    ensures becomes { result ≡ of_server fault }
    ensures whole { IsWhole result }
{
    match fault {
        ServerFault::Broken(_) => HostFault::Memory,
        ServerFault::Memory => HostFault::Memory,
        ServerFault::Disk => HostFault::Disk,
    }
}

/// What a fault of a recovery becomes; the others are of plannings and of a store that is broken.
pub fn of_store(fault: StoreFault) -> HostFault
    ensures { result ≡ of_store fault }
{
    match fault {
        StoreFault::Disk => HostFault::Disk,
        StoreFault::Damaged(file, at) => HostFault::Damaged(file, at),
        _ => HostFault::Memory,
    }
}
