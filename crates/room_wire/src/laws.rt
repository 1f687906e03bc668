//! What follows from the definitions alone.
ghost use Rattle.room_wire.specs.Laws.{OpsReadBack, OpsAreSound, OpsAreShallow};

/// What is read of a written operation is that operation.
pub fn ops_read_back()
    ensures { OpsReadBack }
{}

/// What is read of a value of the profile is sound, and no deeper than a client's frame makes it.
pub fn ops_are_sound()
    ensures sound { OpsAreSound }
    ensures shallow { OpsAreShallow }
{}
