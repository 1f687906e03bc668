//! What follows from the definitions alone.
ghost use Rattle.room_spelled.specs.Laws.{SchedulesAreSpelled, LinesAreFew, SchedulesAreLines};
ghost use Rattle.room_spelled.specs.Laws.{ScriptsAreSpelled};

/// The lines that are read of a text are lines that a schedule can spell: clients from 1 to 64, ids and limits in
/// range, sound values; and what is read of a raw text is sound. There are at most as many lines as bytes, so that
/// those of a text of less than 2^64 bytes are lines of a run.
#[tactic(auto, using(crate::proofs::Schedules::schedules))]
pub fn schedules_are_spelled()
    ensures spelled { SchedulesAreSpelled }
    ensures few { LinesAreFew }
    ensures lines { SchedulesAreLines }
{}

/// The calls that are read of a script are calls of real values.
#[tactic(auto, using(crate::proofs::Schedules::scripts))]
pub fn scripts_are_spelled()
    ensures { ScriptsAreSpelled }
{}
