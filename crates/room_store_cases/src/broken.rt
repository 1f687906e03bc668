//! Why a case has no outcome.
use room_disk::DiskFault;
use room_json::NoMemory;
use std::alloc::AllocError;
use std::error::Error;
use std::fmt;

/// Why a case has no outcome: out of memory, or what is wanted in its place.
#[derive(Clone, Copy, Debug, PartialEq, Eq)]
pub(crate) enum Broken {
    Memory,
    Verb,
    Number,
    Hex,
    Disk,
}

impl From<NoMemory> for Broken {
    fn from(_error: NoMemory) -> Broken {
        Broken::Memory
    }
}

impl From<AllocError> for Broken {
    fn from(_error: AllocError) -> Broken {
        Broken::Memory
    }
}

impl From<DiskFault> for Broken {
    fn from(fault: DiskFault) -> Broken {
        match fault {
            DiskFault::Memory => Broken::Memory,
            DiskFault::Failed => Broken::Disk,
        }
    }
}

impl Broken {
    fn wanted(self) -> &'static str {
        match self {
            Broken::Memory => "more memory",
            Broken::Verb => "a subject and its words",
            Broken::Number => "a number in range",
            Broken::Hex => "hex digits, two a byte",
            Broken::Disk => "a disk that doesn't fail here",
        }
    }
}

impl fmt::Display for Broken {
    fn fmt<W: fmt::Write>(&self, f: &mut fmt::Formatter<W>) -> fmt::Result {
        write!(f, "no case: {} is wanted", self.wanted())
    }
}

impl Error for Broken {}
