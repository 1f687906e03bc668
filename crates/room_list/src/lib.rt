//! The operations that edits of lists make.
#![tactic(auto)]

mod keys;
mod lists;
mod walking;

pub use lists::make_list;
