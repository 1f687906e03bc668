//! Nodes, operations, and what a step of a tree is.
#![tactic(auto)]

mod cells;
mod copies;
mod laws;
mod nodes;
mod sound;
mod turns;

pub use cells::{Cell, Cells};
pub use laws::{settling_twice_is_once, steps_are_formed};
pub use nodes::{Bodies, Body, Change, Changes, Kind, Node, Op, Ops};
pub use turns::Turn;
