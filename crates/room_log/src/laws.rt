//! The laws, each the contract of a function without a body.
ghost use Rattle.room_log.specs.Laws.{FollowsExactly, TakenFollows, TakenOnce, ValidAfter};

/// What was taken of a session's operations is taken once: the same operations again are nothing.
pub fn taken_once()
    ensures { TakenOnce }
{}

/// What is taken of a session's operations follows a valid state. They are sound and not too deep, and the number of
/// updates is below its bound.
pub fn taken_follows()
    ensures { TakenFollows }
{}

/// The test of an update says that its session is known, its clocks run on, it has an operation, its operations are
/// settled, its values are not too deep, and its last clock and the number of updates are within their bounds.
pub fn follows_exactly()
    ensures { FollowsExactly }
{}

/// The empty state is valid. A valid entry leads from a valid state to a valid state, and a valid log does.
pub fn valid_after()
    ensures { ValidAfter }
{}
