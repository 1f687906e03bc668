//! The samples of the definitions, as a public call.
ghost use Rattle.room_playing.specs.Samples.{Samples};

/// Samples of the definitions: what a `take` line passes over and where it ends, a dial, and losses.
pub fn samples()
    ensures { Samples }
{}
