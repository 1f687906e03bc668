//! Why an overlay refuses a state or an update.
use room_json::NoMemory;
use std::error::Error;
use std::fmt;

/// Why a state or an update is refused; where several hold, the first.
#[derive(Clone, Copy, Debug, PartialEq, Eq)]
pub enum OverFault {
    /// Out of memory.
    Memory,
    /// The number of the update that was expected, and the one that came.
    Gap(u64, u64),
    /// The number or the clock that is kept, and the one that came.
    Account(u64, u64),
}

impl fmt::Display for OverFault {
    fn fmt<W: fmt::Write>(&self, f: &mut fmt::Formatter<W>) -> fmt::Result {
        match self {
            OverFault::Memory => f.write_str("out of memory"),
            OverFault::Gap(expected, got) => {
                write!(f, "update {} was expected and {} came", expected, got)
            }
            OverFault::Account(kept, got) => write!(f, "{} was kept and {} came", kept, got),
        }
    }
}

impl Error for OverFault {}

impl From<NoMemory> for OverFault {
    ghost use Rattle.std.specs.Prelude.{◌≡◌};
    ghost use Rattle.room_overlay.specs.declared.faults.OverFault.TheVariants.{Memory};

    ghost from_gives = { λ _ e. e ≡ Memory };

    fn from(_error: NoMemory) -> OverFault {
        OverFault::Memory
    }
}
