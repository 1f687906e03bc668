//! Why a run ended before its last line.
ghost use Rattle.std.specs.Prelude.{◌≡◌};
ghost use Rattle.room_run.specs.Halting.{halt_of};
ghost use Rattle.room_run.specs.declared.halt.Halt.TheVariants.{Memory};

use room_edge::SinkFault;
use room_json::NoMemory;
use room_world::WorldFault;
use thiserror::Error;

/// Why a run ended before its last line.
#[derive(Clone, Copy, Debug, PartialEq, Eq, Error)]
pub enum Halt {
    /// Out of memory.
    #[error("out of memory")]
    Memory,
    /// The sink failed.
    #[error("the sink failed")]
    Sink,
    /// The disk failed.
    #[error("the disk failed")]
    Disk,
    /// The files hold no room: this file is damaged at this offset.
    #[error("file {0} is damaged at {1}")]
    Damaged(u32, u64),
}

impl From<NoMemory> for Halt {
    ghost from_gives = { λ _ v. v ≡ Memory };

    fn from(_e: NoMemory) -> Halt {
        Halt::Memory
    }
}

/// What a fault of a world becomes.
pub(crate) fn halt_of(fault: WorldFault) -> Halt
    ensures { result ≡ halt_of fault }
{
    match fault {
        WorldFault::Memory => Halt::Memory,
        WorldFault::Disk => Halt::Disk,
        WorldFault::Damaged(file, at) => Halt::Damaged(file, at),
    }
}

/// What a fault of a sink becomes.
pub(crate) fn halt_of_sink(fault: SinkFault) -> Halt
    ensures sink { fault ≡ SinkFault.Failed → result ≡ Halt.Sink }
    ensures memory { fault ≡ SinkFault.Memory → result ≡ Halt.Memory }
{
    match fault {
        SinkFault::Memory => Halt::Memory,
        SinkFault::Failed => Halt::Sink,
    }
}
