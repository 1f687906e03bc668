//! A disk of numbered files: what calls do to it, what a stop may leave of it, and disks in memory.
#![tactic(auto)]

mod change;
mod disk;
mod durable;
mod failing;
mod files;
mod medium;
mod mem;
mod sure;
#[cfg(test)]
mod tests;

pub use change::{FileChange, is_past_bound};
pub use disk::{Disk, DiskFault, Stop};
pub use durable::put_down;
pub use mem::MemDisk;
pub use sure::SureDisk;
