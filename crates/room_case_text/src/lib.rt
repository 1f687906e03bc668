//! The text of cases: what stands behind a case's command, and what is written of values.
#![tactic(auto)]

mod args;
mod lines;
mod missing;
mod writing;

pub use args::{bytes, cut, item, items, node, number, number_at, object_at, text_at, value};
pub use lines::{is_case, said, tildes};
pub use missing::Broken;
pub use writing::{op_of, shown};
