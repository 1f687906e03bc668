//! A run that meets the premises of the laws, as a public call.
ghost use Rattle.room_laws.specs.AloneSample.{AloneSample};
ghost use Rattle.room_laws.specs.Sample.{Sample};
ghost use Rattle.room_laws.specs.UndoSample.{UndoSample};

/// Two clients join, edit, and take each other's edits, and the server stops and starts while an edit is on its way:
/// the lines can be spelled, both clients are undisturbed and loaded before the stop and in the end, and the log has
/// both edits.
pub fn premises_are_met()
    ensures { Sample }
{}

/// The first client then takes its edit back, behind the other's edit and the stop: what the law of undoing asks for,
/// and both clients show the other's edit alone.
pub fn undo_is_met()
    ensures { UndoSample }
{}

/// Where nothing but its own edit came to the first client, undoing it is what the law of undoing alone asks for.
pub fn alone_is_met()
    ensures { AloneSample }
{}
