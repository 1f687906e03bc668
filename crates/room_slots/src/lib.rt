//! The clients of a world by number, and what each call and each message does to one of them.
#![tactic(auto)]

mod asking;
mod refusals;
mod slot;
mod slots;
mod taking;

pub use asking::Question;
pub use slots::Slots;
pub use taking::Taken;
