//! Notices and paths.
use room_json::{Json, Members, Names, Seq, Text};

/// A step of a path from the root: a name of an object or a map, or an index of a list.
#[derive(Drop)]
pub enum Step {
    Key(Text),
    Index(u64),
}

/// What changed in a view. The names of `set` get their values first, then those of `unset` go.
#[derive(Drop)]
pub enum Notice {
    /// Of an object.
    Fields {
        path: Path,
        set: Members,
        unset: Names,
    },
    /// Of a map.
    Keys {
        path: Path,
        set: Members,
        unset: Names,
    },
    /// An item came into a list.
    Insert {
        path: Path,
        index: u64,
        value: Json,
    },
    /// An item left a list.
    Take {
        path: Path,
        index: u64,
    },
    /// An item went out of a list at one index and in at another.
    Move {
        path: Path,
        from: u64,
        to: u64,
    },
    /// All of the view is another.
    Reset(Json),
}

/// The steps from the root.
pub type Path = Seq<Step>;

/// Notices in order.
pub type Notices = Seq<Notice>;
