//! What follows from the definitions alone.
ghost use Rattle.room_valid.specs.Laws.{ValuesAreJson, EntriesAreSound, GroupsAreSound};
ghost use Rattle.room_valid.specs.Laws.{SnapshotsAreValid, FilesAreValid, StandingIsValid};

/// The value that a text spells is of the profile and at most 60 levels deep.
pub fn values_are_json()
    ensures { ValuesAreJson }
{}

/// What is read of bytes is made of ids in range, texts in UTF-8 and values of the profile: an entry, and each entry of
/// a group.
pub fn entries_are_sound()
    ensures entries { EntriesAreSound }
    ensures groups { GroupsAreSound }
{}

/// A state that is read is valid: of a snapshot, of the two files of a room, and of a disk's files or of an image of
/// them, which stand for the empty state where they are new.
pub fn files_are_valid()
    ensures snapshots { SnapshotsAreValid }
    ensures files { FilesAreValid }
    ensures standing { StandingIsValid }
{}
