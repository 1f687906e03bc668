//! Laws of a client by itself.
ghost use Rattle.room_laws.specs.Accounts.{KeepsSound};
ghost use Rattle.room_laws.specs.Back.{UndoesAlone};
ghost use Rattle.room_laws.specs.Bounds.{HistoryBounded};
ghost use Rattle.room_laws.specs.Clocks.{KeepsClocks};
ghost use Rattle.room_laws.specs.Open.{KeepsOpen};

/// The undo and redo lists hold 50 entries at most, and a pause's bag stands beside an empty redo list.
pub fn history_bounded()
    ensures { HistoryBounded }
{}

/// The clocks of a client's batches run on by ones from the last acknowledged one, after each call and each message.
pub fn keeps_clocks()
    ensures { KeepsClocks }
{}

/// What takes an open batch back is its reversal on the tree that was shown as it began, until a state or an update
/// comes; its end notes that, as an edit outside a batch notes its own reversal; and undoing an entry issues what it
/// holds.
pub fn keeps_open()
    ensures { KeepsOpen }
{}

/// Undos in a row restore what a client showed before the entries that they take, where nothing that came between
/// changed what it shows.
pub fn undoes_alone()
    ensures { UndoesAlone }
{}

/// An account is sound at first, and each call and each message of a server keeps it so.
pub fn keeps_sound()
    ensures { KeepsSound }
{}
