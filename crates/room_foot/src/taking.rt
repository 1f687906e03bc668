//! Whether a node has its place in a list, one child of the list not counted.
ghost use Rattle.std.specs.Prelude.{◌≡◌};
ghost use Rattle.std.specs.Option.{option_copied};
ghost use Rattle.room_nodes.specs.Steps.{is_placed, without};
ghost use Rattle.room_tree.specs.Skipped.{IsChildOf};

use crate::lengths::fits_between;
use room_ids::{NodeId, Pos};
use room_json::Text;
use room_tree::{Tree, is_taken, next_key};

/// Whether a node can stand in a list at a position, or at one made in its place where another has it.
pub(crate) fn is_placed<T: Tree>(
    t: &T,
    list: &NodeId,
    own: &NodeId,
    key: &Text,
    replaced: Option<&NodeId>,
) -> bool
    requires { IsChildOf (T.nodes t.now) list.now (option_copied replaced) }
    ensures { result ≡ is_placed (without (T.nodes t.now) (option_copied replaced.entry)) list.now own.now key.now }
{
    if !Pos::is_pos(key.as_bytes()) {
        return false;
    }
    if is_taken(t, list, key, own, replaced) {
        fits_between(key, next_key(t, list, key, replaced))
    } else {
        true
    }
}
