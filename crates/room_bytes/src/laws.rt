//! What follows from the definitions alone.
ghost use Rattle.room_bytes.specs.Laws.{EntriesReadBack, EntriesAreSpelledOnce, EntriesDiffer};
ghost use Rattle.room_bytes.specs.Laws.{GroupsReadBack, GroupsAreSpelledOnce, GroupsDiffer};

/// The bytes of an entry are read as that entry, and two entries have different bytes.
pub fn entries_read_back()
    ensures back { EntriesReadBack }
    ensures differ { EntriesDiffer }
{}

/// Bytes that are read as an entry are its bytes, and the entry is one that has bytes.
pub fn entries_are_spelled_once()
    ensures { EntriesAreSpelledOnce }
{}

/// The bytes of a group are read as that group, and two groups have different bytes.
pub fn groups_read_back()
    ensures back { GroupsReadBack }
    ensures differ { GroupsDiffer }
{}

/// Bytes that are read as a group are its bytes, and its entries are such that have bytes.
pub fn groups_are_spelled_once()
    ensures { GroupsAreSpelledOnce }
{}
