//! Edits of live values, and the operations that edits of objects and maps make.
#![tactic(auto)]

mod clocks;
mod copying;
mod creating;
mod editing;
mod live;
mod parts;
mod placing;
mod props;
mod sound;
mod weighing;

pub use clocks::finish;
pub use creating::{Place, make_node};
pub use editing::{Clocks, Edit, EditFault, Made};
pub use live::{Init, Inits, Parts};
pub use props::{make_none, make_one, make_prop};
pub use weighing::{MAX_NODE_DEPTH, MAX_VALUE_DEPTH, weighed};
