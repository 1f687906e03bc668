//! Each edit that is made has the effect that its name says.
ghost use Rattle.room_effect.specs.Effect.{EditsShow};

/// The operations of an edit are neither void nor moved by settlement where they are made. Folding them changes what
/// the node shows as the edit's name says, and leaves all else of the view as it was.
pub fn edits_show()
    ensures { EditsShow }
{}
