//! Large trees and operations, which take few words to say.
use room_apply::step;
use room_case_text::{Broken, node, tildes};
use room_ids::{NodeId, OpId, Stamp};
use room_json::{Members, Text};
use room_nodes::{Body, Kind, Op};
use room_tree::Tree;
use std::alloc::Global;

/// An operation that makes a node.
fn creation(node: NodeId, parent: NodeId, key: Text, kind: Kind) -> Result<Op, Broken> {
    let Some(stamp) = Stamp::new(9, 1) else {
        return Err(Broken::Number);
    };
    let body = Body::Create {
        node,
        parent,
        key,
        replaces: None,
        kind,
    };
    Ok(Op {
        id: OpId(stamp),
        body,
    })
}

/// A map at the last of all positions of the list 1:1.
pub(crate) fn create_last(alloc: Global, id: &str) -> Result<Op, Broken> {
    creation(node(id)?, node("1:1")?, tildes(alloc, 4096)?, Kind::Map)
}

fn made(clock: u64) -> Result<NodeId, Broken> {
    match Stamp::new(1, clock) {
        Some(stamp) => Ok(NodeId::Made(stamp)),
        None => Err(Broken::Number),
    }
}

/// So many objects from 1:1 on, each in the one before at the key `k`.
pub(crate) fn chain<T: Tree>(alloc: Global, count: u64) -> Result<T, Broken> {
    let mut t = T::empty(alloc)?;
    let mut parent = NodeId::Root;
    for clock in 0..count {
        let id = made(clock + 1)?;
        let kind = Kind::Object(Members::new(alloc));
        drop(step(
            alloc,
            &mut t,
            &creation(id, parent, Text::from_str(alloc, "k")?, kind)?,
        )?);
        parent = id;
    }
    Ok(t)
}
