//! Why a case has no outcome.
use room_disk::DiskFault;
use room_json::{NoMemory, TextFault};
use std::alloc::{AllocError, AllocFailed};
use std::error::Error;
use std::fmt;

/// Why a case has no outcome: out of memory, or what is wanted in its place.
#[derive(Clone, Copy, Debug, PartialEq, Eq)]
pub(crate) enum Broken {
    Memory,
    Verb,
    Number,
    Hex,
    Text,
    Disk,
}

impl From<NoMemory> for Broken {
    fn from(_error: NoMemory) -> Broken {
        Broken::Memory
    }
}

impl From<AllocError> for Broken {
    fn from(_error: AllocError) -> Broken {
        Broken::Memory
    }
}

impl<T: Drop> From<AllocFailed<T>> for Broken {
    fn from(_error: AllocFailed<T>) -> Broken {
        Broken::Memory
    }
}

impl From<TextFault> for Broken {
    fn from(fault: TextFault) -> Broken {
        match fault {
            TextFault::Memory => Broken::Memory,
            TextFault::NotUtf8 => Broken::Text,
        }
    }
}

impl From<DiskFault> for Broken {
    fn from(fault: DiskFault) -> Broken {
        match fault {
            DiskFault::Memory => Broken::Memory,
            DiskFault::Failed => Broken::Disk,
        }
    }
}

impl fmt::Display for Broken {
    fn fmt<W: fmt::Write>(&self, f: &mut fmt::Formatter<W>) -> fmt::Result {
        f.write_str(match self {
            Broken::Memory => "no case: more memory is wanted",
            Broken::Verb => "no case: a verb and its words are wanted",
            Broken::Number => "no case: a number in range is wanted",
            Broken::Hex => "no case: hex digits, two a byte, are wanted",
            Broken::Text => "no case: a report in UTF-8 is wanted",
            Broken::Disk => "no case: a disk that doesn't fail here is wanted",
        })
    }
}

impl Error for Broken {}
