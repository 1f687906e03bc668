//! Why a part of the bytes was not read.
ghost use Rattle.std.specs.Prelude.{◌≡◌};
ghost use Rattle.room_bytes.specs.declared.misread.Misread.TheVariants.{Memory};

use room_json::NoMemory;
use std::alloc::{AllocError, AllocFailed};
use std::error::Error;
use std::fmt;

/// Why a part was not read.
#[derive(Clone, Copy, Debug, PartialEq, Eq)]
pub enum Misread {
    /// Out of memory.
    Memory,
    /// The bytes spell no such part.
    NoValue,
}

impl fmt::Display for Misread {
    fn fmt<W: fmt::Write>(&self, f: &mut fmt::Formatter<W>) -> fmt::Result {
        f.write_str(match self {
            Misread::Memory => "out of memory",
            Misread::NoValue => "no such part",
        })
    }
}

impl Error for Misread {}

impl From<NoMemory> for Misread {
    ghost from_gives = { λ _ e. e ≡ Memory };

    fn from(_e: NoMemory) -> Misread {
        Misread::Memory
    }
}

impl From<AllocError> for Misread {
    ghost from_gives = { λ _ e. e ≡ Memory };

    fn from(_e: AllocError) -> Misread {
        Misread::Memory
    }
}

impl<T: Drop> From<AllocFailed<T>> for Misread {
    ghost from_gives = { λ _ e. e ≡ Memory };

    fn from(_e: AllocFailed<T>) -> Misread {
        Misread::Memory
    }
}
