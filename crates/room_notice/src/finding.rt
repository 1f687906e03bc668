//! Where a node is: the path to it, and its index in its list.
ghost use Rattle.std.specs.Prelude.{◌≡◌, ◌≢◌, Some, IfOk, true};
ghost use Rattle.std.specs.FinMap.{get};
ghost use Rattle.std.specs.Option.{option_copied};
ghost use Rattle.std.specs.Ordering.{nat_cmp, is_lt};
ghost use Rattle.std.specs.Cmp.Lexicographic.{slice_cmp};
ghost use Rattle.room_ids.specs.declared.ids.NodeId.TheVariants.{Root as TheRoot};
ghost use Rattle.room_model.specs.Notices.{path_of as path_of_spec, path_within, place_of as place_in, index_in};
ghost use Rattle.room_nodes.specs.Steps.{is_under};
ghost use Rattle.room_notice.specs.Notices.{place_of, places_of};
ghost use Rattle.room_notice.specs.Ranks.{rank as rank_of, weight as weight_of};

use crate::shapes::{Path, Step};
use room_ids::{NodeId, same_id};
use room_json::{Copied, NoMemory, Text};
use room_nodes::Node;
use room_tree::{Tree, is_list_at};
use std::alloc::Global;
use std::cmp::Ordering;

/// No node is deeper than this.
const MAX_NODE_DEPTH: u64 = 60;

fn is_below(a: &Text, b: &Text) -> bool
    ensures { result ≡ is_lt (slice_cmp nat_cmp a.now b.now) }
{
    a.as_str().cmp(b.as_str()) == Ordering::Less
}

/// 1, or 0 for the one that isn't counted.
fn weight(skipped: Option<&NodeId>, id: &NodeId) -> u64
    ensures { result ≡ weight_of (option_copied skipped.entry) id.now }
{
    match skipped {
        Some(x) => if same_id(id, x) { 0 } else { 1 },
        None => 1,
    }
}

/// How many children of a node have a key below the given one, one child not counted. Walks over them up to that key,
/// and copies none.
pub(crate) fn rank<T: Tree>(t: &T, parent: &NodeId, key: &Text, skipped: Option<&NodeId>) -> u64
    ensures { result ≡ rank_of (T.nodes t.now) parent.now key.now (option_copied skipped.entry) }
{
    // there are fewer than 2^64 nodes
    t.count();
    let mut count = 0;
    let mut last = None;
    while let Some(child) = t.next_child(parent, last) {
        let own = match t.node(&child) {
            Some(node) => &node.key,
            None => unreachable!(),
        };
        if !is_below(own, key) {
            return count;
        }
        count += weight(skipped, &child);
        last = Some(own);
    }
    count
}

/// The index of a node in the list that it stands in.
pub(crate) fn index_of<T: Tree>(t: &T, id: &NodeId, node: &Node) -> u64
    requires there { get (T.nodes t.now) id.now ≡ Some node.now }
    requires made { id.now ≢ TheRoot }
    ensures { result ≡ index_in (T.nodes t.now) node.now.parent id.now }
{
    rank(t, &node.parent, &node.key, None)
}

/// The index of a child in its list.
pub(crate) fn index_at<T: Tree>(t: &T, list: &NodeId, id: &NodeId) -> u64
    requires { is_under list.now id.now (get (T.nodes t.now) id.now) ≡ true }
    ensures { result ≡ index_in (T.nodes t.now) list.now id.now }
{
    match t.node(id) {
        Some(node) => index_of(t, id, node),
        None => unreachable!(),
    }
}

/// The last step to a node.
fn place<T: Tree>(alloc: Global, t: &T, id: &NodeId, node: &Node) -> Result<Step, NoMemory>
    requires there { get (T.nodes t.now) id.now ≡ Some node.now }
    requires made { id.now ≢ TheRoot }
    ensures { IfOk result (λ s. place_of s ≡ place_in (T.nodes t.now) id.now node.now) }
{
    if is_list_at(t, &node.parent) {
        Ok(Step::Index(index_of(t, id, node)))
    } else {
        Ok(Step::Key(node.key.copy(alloc)?))
    }
}

fn path_to<T: Tree>(alloc: Global, t: &T, id: &NodeId, levels: u64) -> Result<Path, NoMemory>
    ensures { IfOk result (λ p. places_of p ≡ path_within levels (T.nodes t.now) id.now) }
{
    if levels == 0 {
        return Ok(Path::new(alloc));
    }
    let Some(node) = t.node(id) else {
        return Ok(Path::new(alloc));
    };
    if same_id(id, &NodeId::Root) {
        return Ok(Path::new(alloc));
    }
    let mut path = path_to(alloc, t, &node.parent, levels - 1)?;
    path.push(place(alloc, t, id, node)?)?;
    Ok(path)
}

/// The path to a node, empty where it isn't there. Walks to the root once.
pub(crate) fn path_of<T: Tree>(alloc: Global, t: &T, id: &NodeId) -> Result<Path, NoMemory>
    ensures { IfOk result (λ p. places_of p ≡ path_of_spec (T.nodes t.now) id.now) }
{
    path_to(alloc, t, id, MAX_NODE_DEPTH)
}
