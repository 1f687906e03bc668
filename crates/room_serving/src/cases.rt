//! The samples of the definitions, as a public call.
ghost use Rattle.room_serving.specs.Samples.{Samples};

/// Samples of the definitions: turns, what ends the gathering of one, losses, and what is written at the end.
pub fn samples()
    ensures { Samples }
{}
