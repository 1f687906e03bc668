//! Ids of nodes and operations, and positions in lists.
#![tactic(auto)]

mod ids;
mod laws;
mod makers;
mod numerals;
mod order;
mod places;
mod sound;
mod spelling;

pub use ids::{MAX_ACTOR, NodeId, OpId, Stamp};
pub use laws::{ids_are_spelled_once, ids_read_back, positions_are_made, positions_are_ordered};
pub use numerals::{push_number, read_number};
pub use order::{compare, compare_ops, same_id, same_op};
pub use places::{MAX_POSITION, Pos, PosFault, after, before, between, compare_places, first};
