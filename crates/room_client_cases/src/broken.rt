//! Why a case has no outcome.
use room_json::NoMemory;
use room_script::ScriptFault;
use std::alloc::AllocError;
use std::error::Error;
use std::fmt;

/// Why a case has no outcome: out of memory, or what is wanted in its place.
#[derive(Clone, Copy, Debug, PartialEq, Eq)]
pub(crate) enum Broken {
    Memory,
    Number,
    Line,
}

impl From<NoMemory> for Broken {
    fn from(_error: NoMemory) -> Broken {
        Broken::Memory
    }
}

impl From<AllocError> for Broken {
    fn from(_error: AllocError) -> Broken {
        Broken::Memory
    }
}

impl From<ScriptFault> for Broken {
    fn from(fault: ScriptFault) -> Broken {
        match fault {
            ScriptFault::Memory => Broken::Memory,
            ScriptFault::BadLine(_) => Broken::Line,
        }
    }
}

impl fmt::Display for Broken {
    fn fmt<W: fmt::Write>(&self, f: &mut fmt::Formatter<W>) -> fmt::Result {
        f.write_str(match self {
            Broken::Memory => "no case: more memory is wanted",
            Broken::Number => "no case: a number in range is wanted",
            Broken::Line => "no case: a line of a script is wanted",
        })
    }
}

impl Error for Broken {}
