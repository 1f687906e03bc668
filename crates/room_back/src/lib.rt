//! What takes operations back.
#![tactic(auto)]

mod batches;
mod restoring;
mod reversing;
mod slots;
mod updates;

pub use batches::reverse_batch;
pub use reversing::reverse;
