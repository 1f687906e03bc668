//! Why a text spells no value.
use crate::memory::NoMemory;
use std::error::Error;
use std::fmt;

/// Why a text was not read.
#[derive(Clone, Copy, Debug, PartialEq, Eq)]
pub enum JsonFault {
    /// Out of memory.
    Memory,
    /// It is no JSON, or nests over 127 levels.
    NotJson,
    /// Its depth, which is over 60.
    TooDeep(u64),
    /// It holds a number that isn't whole or is outside -(2^53-1) to 2^53-1.
    BadNumber,
}

impl fmt::Display for JsonFault {
    fn fmt<W: fmt::Write>(&self, f: &mut fmt::Formatter<W>) -> fmt::Result {
        match self {
            JsonFault::Memory => f.write_str("out of memory"),
            JsonFault::NotJson => f.write_str("not JSON"),
            JsonFault::TooDeep(levels) => write!(f, "nested too deep ({levels} levels)"),
            JsonFault::BadNumber => f.write_str("a number that is not whole or over 53 bits"),
        }
    }
}

impl Error for JsonFault {}

impl From<NoMemory> for JsonFault {
    ghost use Rattle.std.specs.Prelude.{◌≡◌};
    ghost use Rattle.room_json.specs.declared.reading.JsonFault.TheVariants.{Memory};

    ghost from_gives = { λ _ e. e ≡ Memory };

    fn from(_error: NoMemory) -> JsonFault {
        JsonFault::Memory
    }
}
