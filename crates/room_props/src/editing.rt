//! Edits, what they make, and why they are refused.
use crate::live::Init;
use room_ids::NodeId;
use room_json::{Members, NoMemory, Text};
use room_nodes::Ops;
use std::error::Error;
use std::fmt;

/// What a user does to a live object, map or list.
#[derive(Drop)]
pub enum Edit {
    /// Sets the name of an object or a map.
    Set {
        node: NodeId,
        key: Text,
        init: Init,
    },
    /// Sets fields of an object.
    Update {
        node: NodeId,
        fields: Members,
    },
    /// Removes a name of an object or a map.
    Remove {
        node: NodeId,
        key: Text,
    },
    /// Appends an item.
    Push {
        list: NodeId,
        init: Init,
    },
    /// Puts an item in at an index.
    Insert {
        list: NodeId,
        index: u64,
        init: Init,
    },
    /// Puts an item in the place of another.
    Put {
        list: NodeId,
        index: u64,
        init: Init,
    },
    /// Takes an item out at one index and puts it in at another.
    Move {
        list: NodeId,
        from: u64,
        to: u64,
    },
    /// Takes an item out.
    Take {
        list: NodeId,
        index: u64,
    },
    /// Takes all items out.
    Clear {
        list: NodeId,
    },
}

impl Edit {
    ghost use Rattle.std.specs.Prelude.{◌≡◌};
    ghost use Rattle.room_model.specs.Edits.{target};
    ghost use Rattle.room_props.specs.Edits.{edit_of};

    /// The node that is edited.
    pub fn target(&self) -> &NodeId
        ensures { result.now ≡ target (edit_of self.now) }
    {
        match self {
            Edit::Set {
                node,
                key: _,
                init: _,
            } => node,
            Edit::Update { node, fields: _ } => node,
            Edit::Remove { node, key: _ } => node,
            Edit::Push { list, init: _ } => list,
            Edit::Insert {
                list,
                index: _,
                init: _,
            } => list,
            Edit::Put {
                list,
                index: _,
                init: _,
            } => list,
            Edit::Move {
                list,
                from: _,
                to: _,
            } => list,
            Edit::Take { list, index: _ } => list,
            Edit::Clear { list } => list,
        }
    }
}

/// The next numbers of an actor: of its nodes and of its operations.
#[derive(Clone, Copy, Debug, PartialEq, Eq)]
pub struct Clocks {
    pub actor: u32,
    pub node: u64,
    pub op: u64,
}

/// What an edit makes: its operations, and the numbers that are next then.
#[derive(Drop)]
pub struct Made {
    pub ops: Ops,
    pub next: Clocks,
}

/// Why an edit is refused; where several hold, the first.
#[derive(Clone, Copy, Debug, PartialEq, Eq)]
pub enum EditFault {
    /// Out of memory.
    Memory,
    /// There is no tree yet.
    NotLoaded,
    /// There is no such node.
    NoNode(NodeId),
    /// The node isn't of the kind that is edited so.
    WrongKind(NodeId),
    /// The index, and how many items there are.
    BadIndex(u64, u64),
    /// The greatest depth of a plain value, over 50.
    ValueTooDeep(u64),
    /// The greatest depth of a node, over 60.
    NodeTooDeep(u64),
    /// The bytes of a position, over 4,096.
    PosTooLong(u64),
    /// The last number that is needed, over 2^53-1.
    ClocksSpent(u64),
    /// The bytes of the batch's frame, over 1,048,576.
    BatchTooLarge(u64),
}

impl fmt::Display for EditFault {
    fn fmt<W: fmt::Write>(&self, f: &mut fmt::Formatter<W>) -> fmt::Result {
        match self {
            EditFault::Memory => f.write_str("out of memory"),
            EditFault::NotLoaded => f.write_str("there is no tree yet"),
            EditFault::NoNode(_) => f.write_str("there is no such node"),
            EditFault::WrongKind(_) => f.write_str("the node is not edited so"),
            EditFault::BadIndex(index, count) => {
                write!(f, "no index {} in a list of {} items", index, count)
            }
            EditFault::ValueTooDeep(depth) => write!(f, "a value is too deep ({} levels)", depth),
            EditFault::NodeTooDeep(depth) => write!(f, "a node is too deep ({} levels)", depth),
            EditFault::PosTooLong(bytes) => write!(f, "a position is too long ({} bytes)", bytes),
            EditFault::ClocksSpent(last) => write!(f, "numbers are spent ({} is needed)", last),
            EditFault::BatchTooLarge(bytes) => write!(
                f,
                "the batch is too large ({} bytes)",
                bytes
            ),
        }
    }
}

impl Error for EditFault {}

impl From<NoMemory> for EditFault {
    ghost use Rattle.std.specs.Prelude.{◌≡◌};
    ghost use Rattle.room_props.specs.declared.editing.EditFault.TheVariants.{Memory};

    ghost from_gives = { λ _ e. e ≡ Memory };

    fn from(_error: NoMemory) -> EditFault {
        EditFault::Memory
    }
}
