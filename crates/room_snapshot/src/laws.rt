//! What follows from the definitions alone.
ghost use Rattle.room_snapshot.specs.Laws.{SnapshotsReadBack, SnapshotsAreSpelledOnce, SnapshotsDiffer};

/// The snapshot of a state is read as that state, and two states have different ones.
pub fn snapshots_read_back()
    ensures back { SnapshotsReadBack }
    ensures differ { SnapshotsDiffer }
{}

/// Bytes that are read as a state are its snapshot.
pub fn snapshots_are_spelled_once()
    ensures { SnapshotsAreSpelledOnce }
{}
