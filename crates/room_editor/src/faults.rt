//! Why calls of an editor are refused.
use room_json::NoMemory;
use std::error::Error;
use std::fmt;

/// Why a batch isn't begun or ended.
#[derive(Clone, Copy, Debug, PartialEq, Eq)]
pub enum BatchFault {
    /// Out of memory.
    Memory,
    /// A batch is open already.
    InBatch,
    /// No batch is open.
    NoBatch,
}

impl fmt::Display for BatchFault {
    fn fmt<W: fmt::Write>(&self, f: &mut fmt::Formatter<W>) -> fmt::Result {
        f.write_str(match self {
            BatchFault::Memory => "out of memory",
            BatchFault::InBatch => "a batch is open",
            BatchFault::NoBatch => "no batch is open",
        })
    }
}

impl Error for BatchFault {}

impl From<NoMemory> for BatchFault {
    ghost use Rattle.std.specs.Prelude.{◌≡◌};
    ghost use Rattle.room_editor.specs.declared.faults.BatchFault.TheVariants.{Memory};

    ghost from_gives = { λ _ e. e ≡ Memory };

    fn from(_error: NoMemory) -> BatchFault {
        BatchFault::Memory
    }
}

/// Why nothing is undone or redone; where several hold, the first.
#[derive(Clone, Copy, Debug, PartialEq, Eq)]
pub enum UndoFault {
    /// Out of memory.
    Memory,
    /// A batch is open.
    InBatch,
    /// The last number that is needed, over 2^53-1.
    ClocksSpent(u64),
    /// The bytes of the batch's frame, over 1,048,576.
    BatchTooLarge(u64),
    /// The bytes of the presence's frame, over 1,048,576.
    TooLarge(u64),
}

impl fmt::Display for UndoFault {
    fn fmt<W: fmt::Write>(&self, f: &mut fmt::Formatter<W>) -> fmt::Result {
        match self {
            UndoFault::Memory => f.write_str("out of memory"),
            UndoFault::InBatch => f.write_str("a batch is open"),
            UndoFault::ClocksSpent(last) => write!(f, "numbers are spent ({} is needed)", last),
            UndoFault::BatchTooLarge(bytes) => write!(
                f,
                "the batch is too large ({} bytes)",
                bytes
            ),
            UndoFault::TooLarge(bytes) => write!(f, "the presence is too large ({} bytes)", bytes),
        }
    }
}

impl Error for UndoFault {}

impl From<NoMemory> for UndoFault {
    ghost use Rattle.std.specs.Prelude.{◌≡◌};
    ghost use Rattle.room_editor.specs.declared.faults.UndoFault.TheVariants.{Memory};

    ghost from_gives = { λ _ e. e ≡ Memory };

    fn from(_error: NoMemory) -> UndoFault {
        UndoFault::Memory
    }
}

/// Why a presence or an event isn't taken; where several hold, the first.
#[derive(Clone, Copy, Debug, PartialEq, Eq)]
pub enum SayFault {
    /// Out of memory.
    Memory,
    /// No room state was taken on this connection.
    NotConnected,
    /// The greatest depth of a value, over 50.
    ValueTooDeep(u64),
    /// The bytes of the frame, over 1,048,576.
    TooLarge(u64),
}

impl fmt::Display for SayFault {
    fn fmt<W: fmt::Write>(&self, f: &mut fmt::Formatter<W>) -> fmt::Result {
        match self {
            SayFault::Memory => f.write_str("out of memory"),
            SayFault::NotConnected => f.write_str("not connected"),
            SayFault::ValueTooDeep(depth) => write!(f, "a value is too deep ({} levels)", depth),
            SayFault::TooLarge(bytes) => write!(f, "the frame is too large ({} bytes)", bytes),
        }
    }
}

impl Error for SayFault {}

impl From<NoMemory> for SayFault {
    ghost use Rattle.std.specs.Prelude.{◌≡◌};
    ghost use Rattle.room_editor.specs.declared.faults.SayFault.TheVariants.{Memory};

    ghost from_gives = { λ _ e. e ≡ Memory };

    fn from(_error: NoMemory) -> SayFault {
        SayFault::Memory
    }
}
