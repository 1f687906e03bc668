//! A tree as items, and as the JSON that is shown of it.
#![tactic(auto)]

mod kids;
mod laws;
mod order;
mod putting;
mod reading;
mod row;
mod shape;
mod showing;
mod writing;

pub use laws::{items_are_sound, items_read_back, trees_are_sound, trees_read_back};
pub use reading::read_items;
pub use showing::{view, view_of};
pub use writing::write_items;
