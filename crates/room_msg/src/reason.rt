//! Why a text is no frame.
use room_json::{JsonFault, NoMemory, Text};
use std::error::Error;
use std::fmt;

/// Why a frame is refused. The first that holds, in this order, is its reason.
#[derive(Drop)]
pub enum Reason {
    /// A client frame has over 1,048,576 bytes.
    Size,
    /// The frame is no JSON, or nests over 127 levels, or holds a number that no finite float is near.
    Json,
    /// It nests over 60 levels, and not over 127.
    Depth,
    /// It holds a number that isn't written as a whole number, or is outside -(2^53-1) to 2^53-1.
    Number,
    /// A client frame is no list, or a server frame is neither an object nor a list.
    List,
    /// A message is no object, or its `type` is none of the sender's.
    Kind,
    /// The first field of a message that is missing or wrong; within `ops` that of the operation.
    Field(Text),
    /// Without a session the frame isn't exactly one hello, or with a session it holds one.
    /// The server alone finds this, in a frame that was read.
    Hello,
    /// Without a session the frame is exactly one hello, to another room.
    /// The server alone finds this, in a frame that was read.
    Room,
}

/// Why no frame was read.
#[derive(Drop)]
pub enum MsgFault {
    /// Out of memory.
    Memory,
    /// The frame is refused.
    Bad(Reason),
}

impl From<NoMemory> for MsgFault {
    ghost use Rattle.std.specs.Prelude.{◌≡◌};
    ghost use Rattle.room_msg.specs.declared.reason.MsgFault.TheVariants.{Memory};

    ghost from_gives = { λ _ e. e ≡ Memory };

    fn from(_error: NoMemory) -> MsgFault {
        MsgFault::Memory
    }
}

impl From<JsonFault> for MsgFault {
    ghost use Rattle.std.specs.Prelude.{◌≡◌};
    ghost use Rattle.room_msg.specs.Frame.{fault_of};

    ghost from_gives = { λ fault e. e ≡ fault_of fault };

    fn from(fault: JsonFault) -> MsgFault {
        match fault {
            JsonFault::Memory => MsgFault::Memory,
            JsonFault::NotJson => MsgFault::Bad(Reason::Json),
            JsonFault::TooDeep(_) => MsgFault::Bad(Reason::Depth),
            JsonFault::BadNumber => MsgFault::Bad(Reason::Number),
        }
    }
}

impl fmt::Display for Reason {
    fn fmt<W: fmt::Write>(&self, f: &mut fmt::Formatter<W>) -> fmt::Result {
        match self {
            Reason::Size => f.write_str("the frame is too long"),
            Reason::Json => f.write_str("the frame is no JSON"),
            Reason::Depth => f.write_str("the frame nests too deep"),
            Reason::Number => f.write_str(
                "the frame holds a number that is not whole or too large",
            ),
            Reason::List => f.write_str("the frame is no list of messages"),
            Reason::Kind => f.write_str("a message has no type that the sender may send"),
            Reason::Field(name) => write!(f, "the field `{}` is missing or wrong", name.as_str()),
            Reason::Hello => f.write_str(
                "the session's hello is missing, or a second one is there",
            ),
            Reason::Room => f.write_str("the hello asks for another room"),
        }
    }
}

impl fmt::Debug for Reason {
    fn fmt<W: fmt::Write>(&self, f: &mut fmt::Formatter<W>) -> fmt::Result {
        fmt::Display::fmt(self, f)
    }
}

impl Error for Reason {}

impl fmt::Display for MsgFault {
    fn fmt<W: fmt::Write>(&self, f: &mut fmt::Formatter<W>) -> fmt::Result {
        match self {
            MsgFault::Memory => f.write_str("out of memory"),
            MsgFault::Bad(reason) => write!(f, "{reason}"),
        }
    }
}

impl fmt::Debug for MsgFault {
    fn fmt<W: fmt::Write>(&self, f: &mut fmt::Formatter<W>) -> fmt::Result {
        fmt::Display::fmt(self, f)
    }
}

impl Error for MsgFault {}
