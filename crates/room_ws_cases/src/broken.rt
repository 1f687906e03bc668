//! Why a case has no outcome.
use room_json::NoMemory;
use std::alloc::{AllocError, AllocFailed};
use std::error::Error;
use std::{fmt, io};

/// Why a case has no outcome: out of memory, or what is wanted in its place.
#[derive(Clone, Copy, Debug, PartialEq, Eq)]
pub(crate) enum Broken {
    Memory,
    Verb,
    Number,
    Hex,
    Stream,
    Hub,
    System,
}

impl From<NoMemory> for Broken {
    fn from(_error: NoMemory) -> Broken {
        Broken::Memory
    }
}

impl From<AllocError> for Broken {
    fn from(_error: AllocError) -> Broken {
        Broken::Memory
    }
}

impl<T: Drop> From<AllocFailed<T>> for Broken {
    fn from(_error: AllocFailed<T>) -> Broken {
        Broken::Memory
    }
}

impl From<io::Error> for Broken {
    fn from(_error: io::Error) -> Broken {
        Broken::System
    }
}

impl Broken {
    fn wanted(self) -> &'static str {
        match self {
            Broken::Memory => "more memory",
            Broken::Verb => "a subject and one of its verbs",
            Broken::Number => "a number",
            Broken::Hex => "hex digits, two a byte",
            Broken::Stream => "a stream that waited",
            Broken::Hub => "a hub",
            Broken::System => "a system that does it",
        }
    }
}

impl fmt::Display for Broken {
    fn fmt<W: fmt::Write>(&self, f: &mut fmt::Formatter<W>) -> fmt::Result {
        write!(f, "no case: {} is wanted", self.wanted())
    }
}

impl Error for Broken {}
