//! What follows from the definitions of steps: what operations touch, and what takes them back.
//!
//! Laws alone, over the trees and operations of `room_nodes`.
#![tactic(auto)]

mod laws;

pub use laws::{
    cells_stay, footprints, keeps_shallow, keeps_sound, reversible, same_on_cells, settles_once,
    undo_restores,
};
