//! Trees of nodes: the calls that every tree has, and the plain tree, a sorted vector.
#![tactic(auto)]

mod copies;
mod living;
mod plain;
mod settling;
mod taking;
mod tree;

pub use copies::copy_of;
pub use living::{live, settled};
pub use plain::PlainTree;
pub use room_nodes::{Bodies, Body, Change, Changes, Kind, Node, Op, Ops};
pub use settling::{Settled, has_room_at, is_list_at, is_object_at, replaced_child, settle};
pub use taking::{is_child_of, is_taken, next_key};
pub use tree::Tree;
