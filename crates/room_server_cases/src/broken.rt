//! Why a case has no outcome.
use room_access::AccessFault;
use room_disk::DiskFault;
use room_json::NoMemory;
use std::alloc::AllocError;
use std::error::Error;
use std::fmt;

/// Why a case has no outcome: out of memory, or what is wanted in its place.
#[derive(Clone, Copy, Debug, PartialEq, Eq)]
pub(crate) enum Broken {
    Memory,
    Number,
    Line,
    Access,
    Server,
    Disk,
}

impl From<NoMemory> for Broken {
    fn from(_error: NoMemory) -> Broken {
        Broken::Memory
    }
}

impl From<AllocError> for Broken {
    fn from(_error: AllocError) -> Broken {
        Broken::Memory
    }
}

impl From<AccessFault> for Broken {
    fn from(fault: AccessFault) -> Broken {
        match fault {
            AccessFault::Memory => Broken::Memory,
            AccessFault::BadLine(_) => Broken::Access,
        }
    }
}

impl From<DiskFault> for Broken {
    fn from(fault: DiskFault) -> Broken {
        match fault {
            DiskFault::Memory => Broken::Memory,
            DiskFault::Failed => Broken::Disk,
        }
    }
}

impl fmt::Display for Broken {
    fn fmt<W: fmt::Write>(&self, f: &mut fmt::Formatter<W>) -> fmt::Result {
        f.write_str(match self {
            Broken::Memory => "no case: more memory is wanted",
            Broken::Number => "no case: a number in range is wanted",
            Broken::Line => "no case: a verb and its words are wanted",
            Broken::Access => "no case: passes and rules are wanted",
            Broken::Server => "no case: a server is wanted",
            Broken::Disk => "no case: a disk that doesn't fail here is wanted",
        })
    }
}

impl Error for Broken {}
