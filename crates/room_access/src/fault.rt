//! Why an access text was not read.
ghost use Rattle.std.specs.Prelude.{◌≡◌};
ghost use Rattle.room_access.specs.declared.fault.Misread.TheVariants.{Memory};

use room_json::NoMemory;
use std::error::Error;
use std::fmt;

/// Why an access text was not read.
#[derive(Clone, Copy, Debug, PartialEq, Eq)]
pub enum AccessFault {
    /// Out of memory.
    Memory,
    /// The number of the first line outside the grammar.
    BadLine(u64),
}

impl fmt::Display for AccessFault {
    fn fmt<W: fmt::Write>(&self, f: &mut fmt::Formatter<W>) -> fmt::Result {
        match self {
            AccessFault::Memory => f.write_str("out of memory"),
            AccessFault::BadLine(number) => write!(f, "line {} is outside the grammar", number),
        }
    }
}

impl Error for AccessFault {}

impl From<NoMemory> for AccessFault {
    ghost use Rattle.room_access.specs.declared.fault.AccessFault.TheVariants.{Memory};

    ghost from_gives = { λ _ e. e ≡ Memory };

    fn from(_error: NoMemory) -> AccessFault {
        AccessFault::Memory
    }
}

/// Why a part of a line was not read.
#[derive(Clone, Copy, Debug, PartialEq, Eq)]
pub(crate) enum Misread {
    /// Out of memory.
    Memory,
    /// It is outside the grammar.
    Outside,
}

impl From<NoMemory> for Misread {
    ghost from_gives = { λ _ e. e ≡ Memory };

    fn from(_error: NoMemory) -> Misread {
        Misread::Memory
    }
}
