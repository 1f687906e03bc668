//! What follows from the definitions alone: a fuse as the model counts it, the parts of a world, and texts that wait.
ghost use Rattle.room_moves.specs.Fuses.{GoesOn, StopsThere, EarlyIsNotKept, LateIsKept};

/// A disk that makes so many calls goes on with what is left of its fuse, or stops at the call that it was armed for;
/// of a commit that it stops in, the entry is kept or not.
#[tactic(auto, using(crate::proofs::Fuses::burning))]
pub fn fuses_burn()
    ensures goes_on { GoesOn }
    ensures stops { StopsThere }
    ensures early { EarlyIsNotKept }
    ensures late { LateIsKept }
{}

ghost use Rattle.room_moves.specs.Parts.{SendsOnParts, NothingInbound, StoppedReceivesNothing, ReceivesOnParts};
ghost use Rattle.room_moves.specs.Parts.{NothingOutbound, TakesOnParts, DrainsNothing, DrainsOneByOne, DrainEnds};
ghost use Rattle.room_moves.specs.Parts.{StepsJoin};

/// A line of the model by the parts of a world.
#[tactic(auto, using(crate::proofs::Parts::parts))]
pub fn parts_make_worlds()
    ensures sends { SendsOnParts }
    ensures nothing_inbound { NothingInbound }
    ensures stopped { StoppedReceivesNothing }
    ensures receives { ReceivesOnParts }
    ensures nothing_outbound { NothingOutbound }
    ensures takes { TakesOnParts }
    ensures drains_nothing { DrainsNothing }
    ensures drains_one { DrainsOneByOne }
    ensures drain_ends { DrainEnds }
    ensures join { StepsJoin }
{}

ghost use Rattle.room_moves.specs.Reading.{FramesAreSeen, OutsAreSeen};

/// Texts that are read as they were meant are seen so where they wait.
#[tactic(auto, using(crate::proofs::Reading::reading))]
pub fn texts_are_seen()
    ensures frames { FramesAreSeen }
    ensures outs { OutsAreSeen }
{}
