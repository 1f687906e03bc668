//! The laws, each the contract of a function without a body.
ghost use Rattle.room_served.specs.Laws.{Parts, SentIsLogged, ServedValid};

/// What serves a room is served from its first part on, and two parts behind one another serve it; the log of a first
/// part is a first part of the log, turn by turn.
pub fn parts()
    ensures { Parts }
{}

/// The log of a served room is valid, and leads to the server's state.
pub fn served_valid()
    ensures { ServedValid }
{}

/// What is to be sent stands in the log: each update with its number and operations, and the session of
/// each room state.
pub fn sent_is_logged()
    ensures { SentIsLogged }
{}
