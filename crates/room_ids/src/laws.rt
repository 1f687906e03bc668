//! What follows from the definitions alone.
ghost use Rattle.room_ids.specs.Laws.{NumbersReadBack, StampsReadBack, NodesReadBack};
ghost use Rattle.room_ids.specs.Laws.{StampsAreSpelledOnce, NodesAreSpelledOnce};
ghost use Rattle.room_ids.specs.Laws.{AfterIsAbove, BeforeIsBelow, BetweenIsBetween};
ghost use Rattle.room_ids.specs.Laws.{MadeArePositions, MadeAreShort, LowestIsLast};

/// What is read of a written number or id is that number or id.
pub fn ids_read_back()
    ensures numbers { NumbersReadBack }
    ensures stamps { StampsReadBack }
    ensures nodes { NodesReadBack }
{}

/// Each id has one text, and its numbers are in range.
pub fn ids_are_spelled_once()
    ensures stamps { StampsAreSpelledOnce }
    ensures nodes { NodesAreSpelledOnce }
{}

/// The made positions stand before, after and between those that they are made of.
pub fn positions_are_ordered()
    ensures after { AfterIsAbove }
    ensures before { BeforeIsBelow }
    ensures between { BetweenIsBetween }
{}

/// A made text is a position unless it is too long, and it is so by one byte at most.
pub fn positions_are_made()
    ensures positions { MadeArePositions }
    ensures short { MadeAreShort }
    ensures lowest { LowestIsLast }
{}
