//! The order of ids.
ghost use Rattle.std.specs.Prelude.{◌≡◌};
ghost use Rattle.room_ids.specs.Order.{node_cmp, is_same, stamp_cmp, is_same_stamp};

use crate::ids::{NodeId, OpId};
use std::cmp::Ordering;

/// The root first, and then by actor and clock.
pub fn compare(a: &NodeId, b: &NodeId) -> Ordering
    ensures { result ≡ node_cmp a.now b.now }
{
    match (a, b) {
        (NodeId::Root, NodeId::Root) => Ordering::Equal,
        (NodeId::Root, NodeId::Made(_)) => Ordering::Less,
        (NodeId::Made(_), NodeId::Root) => Ordering::Greater,
        (NodeId::Made(s), NodeId::Made(t)) => {
            s.actor().cmp(&t.actor()).then(s.clock().cmp(&t.clock()))
        }
    }
}

/// Whether two ids are one.
pub fn same_id(a: &NodeId, b: &NodeId) -> bool
    ensures { result ≡ is_same a.now b.now }
{
    compare(a, b) == Ordering::Equal
}

/// By actor and clock.
pub fn compare_ops(a: &OpId, b: &OpId) -> Ordering
    ensures { result ≡ stamp_cmp a.now.0 b.now.0 }
{
    a.0.actor()
        .cmp(&b.0.actor())
        .then(a.0.clock().cmp(&b.0.clock()))
}

/// Whether two operations are one.
pub fn same_op(a: &OpId, b: &OpId) -> bool
    ensures { result ≡ is_same_stamp a.now.0 b.now.0 }
{
    compare_ops(a, b) == Ordering::Equal
}
