//! Laws of every run, from each valid opening state and over all lines that a schedule can spell.
ghost use Rattle.room_laws.specs.Alone.{AlwaysAlone};
ghost use Rattle.room_laws.specs.Always.{AlwaysOnce, AlwaysServed, AlwaysShows, AlwaysTaken, AlwaysUndo, AlwaysUndone};
ghost use Rattle.room_laws.specs.Events.{FollowsEvents};
ghost use Rattle.room_laws.specs.Growth.{LogGrows};
ghost use Rattle.room_laws.specs.Moments.{AtEveryMoment};
ghost use Rattle.room_laws.specs.Moves.{RunsSingly};
ghost use Rattle.room_laws.specs.Reports.{ReportInOrder};
ghost use Rattle.room_laws.specs.Undo.{EachReversed};
ghost use Rattle.room_laws.specs.Validity.{SoundAccounts, SoundWorlds, ValidRun};

/// The report of lines after others is theirs, from the world that those left.
pub fn report_in_order()
    ensures { ReportInOrder }
{}

/// The log of every run is valid: each entry follows the state that those before it lead to.
pub fn valid_run()
    ensures { ValidRun }
{}

/// The log only grows, whatever lines follow, and each entry stays what it was. At every moment the server stands where
/// its log leads: what a recovery finds is the state after a first part of every later log.
pub fn log_grows()
    ensures { LogGrows }
{}

/// What is there after a run is sound: the server, its limits, and what waits on each connection.
pub fn sound_worlds()
    ensures { SoundWorlds }
{}

/// The account of every client is sound.
pub fn sound_accounts()
    ensures { SoundAccounts }
{}

/// A client that shows a tree shows the log: the tree after the first n updates, with its own operations that are not
/// acknowledged yet on top.
pub fn each_shows()
    ensures { AlwaysShows }
{}

/// Each batch that a client issued is taken into the log once, in order, whole, and settled where it is taken; and what
/// the client was told is in the log.
pub fn each_once()
    ensures { AlwaysOnce }
{}

/// A client refuses no message that comes down to it.
pub fn each_taken()
    ensures { AlwaysTaken }
{}

/// No frame of a client is answered as a bad one: not by a close for its form, its session, its clocks or its actor.
pub fn each_served()
    ensures { AlwaysServed }
{}

/// A drain is as the lines that it stands for, one for each frame that it moves.
pub fn runs_singly()
    ensures { RunsSingly }
{}

/// The laws on what a client shows, what the log took of it, what it refuses and how it is answered, at every moment of
/// a run: between two frames of a drain too.
pub fn at_every_moment()
    ensures { AtEveryMoment }
{}

/// A client's account is what its calls, the messages that come down to it and its losses make of it, whatever happens
/// to the others.
pub fn follows_events()
    ensures { FollowsEvents }
{}

/// What takes a batch back is its reversal on the tree that the client showed before the batch's first operation: the
/// batch of an edit, of an undo or a redo, or an open one, if no state and no update comes from its first operation to
/// its end.
pub fn each_reversed()
    ensures { EachReversed }
{}

/// A batch whose cells nothing else touched, and what takes it back: the tree after the update that took the latter is
/// as if neither had been. The batch was made on a tree that the client showed.
pub fn each_undone()
    ensures { AlwaysUndone }
{}

/// The same from the lines alone: a client makes a batch and takes its entry back, by an undo or a redo, and both are
/// in the log.
pub fn each_undo()
    ensures { AlwaysUndo }
{}

/// Undoing alone: where no state came to a client since some moment, and each update that came equals its first pending
/// operations, undoing the entries that were begun since restores what it showed then.
pub fn each_undo_alone()
    ensures { AlwaysAlone }
{}
