//! Samples of the grammar.
ghost use Rattle.room_script.specs.Samples.{Samples};

/// Samples of the definitions: lines of schedules and scripts, live values, the generator.
pub fn samples()
    ensures { Samples }
{}
