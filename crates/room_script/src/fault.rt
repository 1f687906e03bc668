//! Why a text was not read.
ghost use Rattle.std.specs.Prelude.{◌≡◌};
ghost use Rattle.room_script.specs.declared.fault.Misread.TheVariants.{Memory};

use room_json::NoMemory;
use std::error::Error;
use std::fmt;

/// Why a schedule or a script was not read.
#[derive(Clone, Copy, Debug, PartialEq, Eq)]
pub enum ScriptFault {
    /// Out of memory.
    Memory,
    /// The number of the first line outside the grammar.
    BadLine(u64),
}

impl fmt::Display for ScriptFault {
    fn fmt<W: fmt::Write>(&self, f: &mut fmt::Formatter<W>) -> fmt::Result {
        match self {
            ScriptFault::Memory => f.write_str("out of memory"),
            ScriptFault::BadLine(number) => write!(f, "line {} is outside the grammar", number),
        }
    }
}

impl Error for ScriptFault {}

impl From<NoMemory> for ScriptFault {
    ghost use Rattle.room_script.specs.declared.fault.ScriptFault.TheVariants.{Memory};

    ghost from_gives = { λ _ e. e ≡ Memory };

    fn from(_error: NoMemory) -> ScriptFault {
        ScriptFault::Memory
    }
}

/// Why a part of a line was not read.
#[derive(Clone, Copy, Debug, PartialEq, Eq)]
pub(crate) enum Misread {
    /// Out of memory.
    Memory,
    /// It is outside the grammar.
    Outside,
}

impl From<NoMemory> for Misread {
    ghost from_gives = { λ _ e. e ≡ Memory };

    fn from(_error: NoMemory) -> Misread {
        Misread::Memory
    }
}
