//! The samples of the model, as a public call.
ghost use Rattle.room_model.specs.Samples.{Samples};

/// Samples of the definitions: edits, what is taken, history, notices, closes and fuses.
pub fn samples()
    ensures { Samples }
{}
