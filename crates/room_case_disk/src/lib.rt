//! A disk for the programs that run cases: it is in memory, can fail and stop, and counts its calls.
#![tactic(auto)]

mod disk;

pub use disk::CaseDisk;
