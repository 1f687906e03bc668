//! What follows from the definitions alone.
ghost use Rattle.room_script.specs.Laws.{SchedulesAreRead};

/// The schedule of a number and a count is in the grammar, up to 2^53-1 turns.
pub fn schedules_are_read()
    ensures { SchedulesAreRead }
{}
