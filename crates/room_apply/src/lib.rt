//! Steps of a tree, and the way back and forth, also among other steps.
#![tactic(auto)]

mod acting;
mod cutting;
mod edits;
mod fitting;
mod laws;
mod slots;
mod stepping;
mod turning;

pub use edits::{Edits, back, forth};
pub use fitting::fit;
pub use laws::{may_go_back, may_go_forth, one_map};
pub use stepping::step;
