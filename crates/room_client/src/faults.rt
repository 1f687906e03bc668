//! Why a client refuses a frame.
use room_json::NoMemory;
use room_msg::{MsgFault, Reason};
use room_overlay::OverFault;
use std::error::Error;
use std::fmt;

/// Why a client refuses a frame.
#[derive(Drop)]
pub enum FrameFault {
    /// Out of memory.
    Memory,
    /// It is no frame of a server.
    BadServerFrame(Reason),
    /// A message of this `type` isn't allowed at this stage, or while parts of a state are kept.
    Unexpected(u64),
    /// The items of a state are no tree.
    NotATree,
    /// The number of the update that was expected, and the one that came.
    Gap(u64, u64),
    /// The number, the clock or the actor that is kept, and the one that came.
    Account(u64, u64),
    /// The number or the clock of the parts that are kept, and that of the one that came.
    Parts(u64, u64),
}

impl fmt::Display for FrameFault {
    fn fmt<W: fmt::Write>(&self, f: &mut fmt::Formatter<W>) -> fmt::Result {
        match self {
            FrameFault::Memory => f.write_str("out of memory"),
            FrameFault::BadServerFrame(_) => f.write_str("no frame of a server"),
            FrameFault::Unexpected(kind) => write!(f, "a message of type {} isn't expected", kind),
            FrameFault::NotATree => f.write_str("the items of the state are no tree"),
            FrameFault::Gap(expected, got) => {
                write!(f, "update {} was expected and {} came", expected, got)
            }
            FrameFault::Account(kept, got) => write!(f, "{} was kept and {} came", kept, got),
            FrameFault::Parts(kept, got) => {
                write!(f, "parts of {} are kept and one of {} came", kept, got)
            }
        }
    }
}

impl fmt::Debug for FrameFault {
    fn fmt<W: fmt::Write>(&self, f: &mut fmt::Formatter<W>) -> fmt::Result {
        fmt::Display::fmt(self, f)
    }
}

impl Error for FrameFault {}

impl From<NoMemory> for FrameFault {
    ghost use Rattle.std.specs.Prelude.{◌≡◌};
    ghost use Rattle.room_client.specs.declared.faults.FrameFault.TheVariants.{Memory};

    ghost from_gives = { λ _ e. e ≡ Memory };

    fn from(_error: NoMemory) -> FrameFault {
        FrameFault::Memory
    }
}

impl From<MsgFault> for FrameFault {
    ghost use Rattle.std.specs.Prelude.{◌≡◌};
    ghost use Rattle.room_client.specs.Faults.{of_reading};

    ghost from_gives = { λ fault e. e ≡ of_reading fault };

    fn from(fault: MsgFault) -> FrameFault {
        match fault {
            MsgFault::Memory => FrameFault::Memory,
            MsgFault::Bad(reason) => FrameFault::BadServerFrame(reason),
        }
    }
}

impl From<OverFault> for FrameFault {
    ghost use Rattle.std.specs.Prelude.{◌≡◌};
    ghost use Rattle.room_client.specs.Faults.{of_over};

    ghost from_gives = { λ fault e. e ≡ of_over fault };

    fn from(fault: OverFault) -> FrameFault {
        match fault {
            OverFault::Memory => FrameFault::Memory,
            OverFault::Gap(expected, got) => FrameFault::Gap(expected, got),
            OverFault::Account(kept, got) => FrameFault::Account(kept, got),
        }
    }
}
