//! How the serving of a room ended, where nothing failed.

/// How the serving of a room ended.
#[derive(Clone, Copy, Debug, PartialEq, Eq)]
pub enum Ended {
    /// The hub gave its end.
    AtEnd,
    /// The hub was asked as often as it was to be.
    OutOfTurns,
}
