//! What an operation touches: the cells that it reads and writes, and whether two operations are apart.
#![tactic(auto)]

mod below;
mod cells;
mod covers;
mod laws;
mod lengths;
mod overlap;
mod parting;
mod rank;
mod taking;
mod voids;

pub use cells::{reads, writes};
pub use laws::{cells_stay, either_order, outside_cells, same_after, same_on_cells};
pub use overlap::touches;
pub use parting::apart;
pub use room_nodes::{Cell, Cells};
