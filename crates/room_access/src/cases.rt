//! Samples of the grammar.
ghost use Rattle.room_access.specs.Samples.{Samples};

/// Samples of the definitions: passes, rules, names, skipped lines.
pub fn samples()
    ensures { Samples }
{}
