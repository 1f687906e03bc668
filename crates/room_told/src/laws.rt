//! What follows from the definitions alone.
ghost use Rattle.room_told.specs.Laws.{NoticesShow, AllShow};

/// The notices of operations, applied to the view of the tree before them, answer true and give the view of the tree
/// behind them.
pub fn notices_show()
    ensures one { NoticesShow }
    ensures all { AllShow }
{}
