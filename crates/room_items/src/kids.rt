//! The children of a node.
ghost use Rattle.std.specs.Prelude.{◌≡◌, IfOk};
ghost use Rattle.room_nodes.specs.Shape.{children};

use room_ids::NodeId;
use room_json::{Copied, NoMemory, Seq, Text};
use room_tree::Tree;
use std::alloc::Global;

/// The children of a node by key, in byte order of the keys.
pub(crate) fn kids<T: Tree>(
    alloc: Global,
    t: &T,
    id: &NodeId,
) -> Result<Seq<(Text, NodeId)>, NoMemory>
    ensures { IfOk result (λ s. s ≡ children (T.nodes t.now) id.now) }
{
    let mut found = Seq::new(alloc);
    let mut next = t.next_child(id, None);
    while let Some(child) = next {
        let key = match t.node(&child) {
            Some(node) => node.key.copy(alloc)?,
            None => unreachable!(),
        };
        next = t.next_child(id, Some(&key));
        found.push((key, child))?;
    }
    Ok(found)
}
