//! The limits of a room.

/// How many updates and sessions a room may have; at most 2^53-1 updates.
#[derive(Clone, Copy, Debug, PartialEq, Eq)]
pub struct Limits {
    pub updates: u64,
    pub sessions: u32,
}
