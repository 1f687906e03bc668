//! Why a case has no outcome.
use room_json::{JsonFault, NoMemory, TextFault};
use std::alloc::AllocError;
use std::error::Error;
use std::fmt;

/// Why a case has no outcome: out of memory, or what is wanted in its place.
#[derive(Clone, Copy, Debug, PartialEq, Eq)]
pub enum Broken {
    Memory,
    Verb,
    Number,
    Hex,
    Utf8,
    Json,
    List,
    Item,
    Object,
    Text,
    Node,
    Op,
    Apart,
    Position,
    Live,
    Tree,
}

impl From<NoMemory> for Broken {
    fn from(_error: NoMemory) -> Broken {
        Broken::Memory
    }
}

impl From<AllocError> for Broken {
    fn from(_error: AllocError) -> Broken {
        Broken::Memory
    }
}

impl From<JsonFault> for Broken {
    fn from(fault: JsonFault) -> Broken {
        match fault {
            JsonFault::Memory => Broken::Memory,
            _ => Broken::Json,
        }
    }
}

impl From<TextFault> for Broken {
    fn from(fault: TextFault) -> Broken {
        match fault {
            TextFault::Memory => Broken::Memory,
            TextFault::NotUtf8 => Broken::Utf8,
        }
    }
}

impl Broken {
    fn wanted(self) -> &'static str {
        match self {
            Broken::Memory => "more memory",
            Broken::Verb => "a subject and one of its verbs",
            Broken::Number => "a number in range",
            Broken::Hex => "hex digits, two a byte",
            Broken::Utf8 => "UTF-8",
            Broken::Json => "JSON",
            Broken::List => "a list",
            Broken::Item => "one more item",
            Broken::Object => "an object",
            Broken::Text => "a text",
            Broken::Node => "a node's id",
            Broken::Op => "an operation",
            Broken::Apart => "an operation apart from the other",
            Broken::Position => "a position, the second above the first",
            Broken::Live => "a live value",
            Broken::Tree => "a tree",
        }
    }
}

impl fmt::Display for Broken {
    fn fmt<W: fmt::Write>(&self, f: &mut fmt::Formatter<W>) -> fmt::Result {
        write!(f, "no case: {} is wanted", self.wanted())
    }
}

impl Error for Broken {}
