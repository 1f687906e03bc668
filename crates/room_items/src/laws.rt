//! What follows from the definitions alone.
ghost use Rattle.room_items.specs.Laws.{NodesReadBack, RootReadsBack, TreesReadBack};
ghost use Rattle.room_items.specs.Laws.{TreesAreFormed, TreesAreSound, TreesAreShallow, ItemsAreSound, ItemsAreShallow};

/// The item that is written of a node is read again as that node.
#[tactic(auto, using(crate::proofs::NodesAgain::nodes_again, crate::proofs::NodesAgain::root_again))]
pub fn items_read_back()
    ensures nodes { NodesReadBack }
    ensures root { RootReadsBack }
{}

/// The items that are written of a well-formed tree spell that tree.
#[tactic(auto, using(crate::proofs::Spells::trees_again))]
pub fn trees_read_back()
    ensures { TreesReadBack }
{}

/// The tree that items spell is well-formed, sound where they are values of the profile, and as shallow as a state
/// makes it.
pub fn trees_are_sound()
    ensures formed { TreesAreFormed }
    ensures sound { TreesAreSound }
    ensures shallow { TreesAreShallow }
{}

/// The items of a sound tree are values of the profile, and those of a shallow one fit into a state.
pub fn items_are_sound()
    ensures sound { ItemsAreSound }
    ensures shallow { ItemsAreShallow }
{}
