//! Notices: what an operation changes in a view, and what they make of a view.
#![tactic(auto)]

mod applying;
mod copies;
mod finding;
mod lists;
mod places;
mod sending;
mod shapes;
mod telling;

pub use applying::apply_notices;
pub use sending::write_notices;
pub use shapes::{Notice, Notices, Path, Step};
pub use telling::notices_of;
