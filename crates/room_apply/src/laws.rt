//! Where edits may go: each law is the contract of a function without a body.
ghost use Rattle.room_apply.specs.Ways.{MayGoBack, MayGoForth, OneMap};

/// Edits that go back from one map go back from each that agrees with it on their cells, and on the fields of the
/// object whose fields they change, with spare places for the nodes that the step removed.
pub fn may_go_back()
    ensures { MayGoBack }
{}

/// The same of the way forth, with spare places for the nodes that the step put.
pub fn may_go_forth()
    ensures { MayGoForth }
{}

/// A map that is another on some cells, and elsewhere as it, is the other. So where going back restores the cells of a
/// step, and the rest is as the map before the step has it, the map before is back.
pub fn one_map()
    ensures { OneMap }
{}
