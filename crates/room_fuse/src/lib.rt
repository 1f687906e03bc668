//! A disk that holds writes back until they are synced, and stops at a call that it was armed for.
#![tactic(auto)]

mod disk;
mod fuse;
mod held;
mod load;
mod pass;
mod past;
mod settle;
mod stopping;
#[cfg(test)]
mod tests;

pub use fuse::Fused;
pub use stopping::Stopping;
