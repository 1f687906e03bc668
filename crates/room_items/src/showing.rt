//! The JSON that a tree shows.
ghost use Rattle.std.specs.Prelude.{◌≡◌, [], IfOk, map, option_map, T};
ghost use Rattle.std.specs.Cmp.Lexicographic.{slice_cmp};
ghost use Rattle.std.specs.FinMap.{is_sorted};
ghost use Rattle.std.specs.Option.{option_copied};
ghost use Rattle.std.specs.Ordering.{nat_cmp};
ghost use Rattle.room_json.specs.Value.{merged};
ghost use Rattle.room_json.specs.View.{json_of, members_view};
ghost use Rattle.room_items.specs.View.{second, node_view, view_within, view as view_spec, view_of as view_of_spec};

use crate::kids::kids;
use crate::order::MAX_NODE_DEPTH;
use room_ids::NodeId;
use room_json::{Copied, Items, Json, Members, NoMemory, Seq, Text};
use room_nodes::{Kind, Node};
use room_tree::Tree;
use std::alloc::Global;

fn with_members(members: Members, shown: Seq<(Text, Json)>) -> Result<Members, NoMemory>
    ensures { IfOk result (λ m. m ≡ merged members (members_view shown)) }
{
    let mut members = members;
    for (name, value) in shown.into_vec() {
        drop(members.set(name, value)?);
    }
    Ok(members)
}

fn in_list(alloc: Global, shown: Seq<(Text, Json)>) -> Result<Items, NoMemory>
    ensures { IfOk result (λ vs. vs ≡ map second (members_view shown)) }
{
    let mut items = Items::new(alloc);
    for (_key, value) in shown.into_vec() {
        items.push(value)?;
    }
    Ok(items)
}

#[tactic(auto, using(crate::proofs::Shown::merged_sorted))]
fn shape(alloc: Global, node: Option<&Node>, shown: Seq<(Text, Json)>) -> Result<Json, NoMemory>
    requires { T (is_sorted (slice_cmp nat_cmp) (members_view shown)) }
    ensures { IfOk result (λ v. json_of v ≡ node_view (option_copied node.entry) (members_view shown)) }
{
    let Some(node) = node else {
        return Ok(Json::Null);
    };
    match &node.kind {
        Kind::Object(fields) => {
            let fields = fields.copy(alloc)?;
            Ok(Json::Object(with_members(fields, shown)?))
        }
        Kind::List => Ok(Json::List(in_list(alloc, shown)?)),
        Kind::Map => Ok(Json::Object(with_members(Members::new(alloc), shown)?)),
        Kind::Register(value) => value.copy(alloc),
    }
}

#[cycle(show)]
#[tactic(auto, using(crate::proofs::Levels::view_none, crate::proofs::Levels::view_more))]
fn view_node<T: Tree>(alloc: Global, t: &T, id: &NodeId, levels: u64) -> Result<Json, NoMemory>
    ensures { IfOk result (λ v. json_of v ≡ view_within levels (T.nodes t.now) id.now) }
{
    if levels == 0 {
        return shape(alloc, t.node(id), Seq::new(alloc));
    }
    let below = kids(alloc, t, id)?;
    let shown = views(alloc, t, below.as_slice(), levels - 1)?;
    shape(alloc, t.node(id), shown)
}

#[cycle(show)]
#[tactic(auto, using(crate::proofs::Shown::members_append))]
fn views<T: Tree>(
    alloc: Global,
    t: &T,
    below: &[(Text, NodeId)],
    levels: u64,
) -> Result<Seq<(Text, Json)>, NoMemory>
    ensures { IfOk result (λ vs. members_view vs ≡ map (λ e. (e.0, view_within levels (T.nodes t.now) e.1)) below.now) }
{
    let mut shown = Seq::new(alloc);
    for kid in below {
        let value = view_node(alloc, t, &kid.1, levels)?;
        let name = kid.0.copy(alloc)?;
        shown.push((name, value))?;
    }
    Ok(shown)
}

/// The JSON of the root. Fails only where memory runs out.
#[tactic(auto, unfolding(crate::specs::View::view_at))]
pub fn view<T: Tree>(alloc: Global, t: &T) -> Result<Json, NoMemory>
    ensures { IfOk result (λ v. json_of v ≡ view_spec (T.nodes t.now)) }
{
    view_node(alloc, t, &NodeId::Root, MAX_NODE_DEPTH)
}

/// The JSON of a node, None exactly where it isn't there. Fails only where memory runs out.
#[tactic(auto, unfolding(crate::specs::View::view_at))]
pub fn view_of<T: Tree>(alloc: Global, t: &T, id: &NodeId) -> Result<Option<Json>, NoMemory>
    ensures { IfOk result (λ v. option_map json_of v ≡ view_of_spec (T.nodes t.now) id.now) }
{
    match t.node(id) {
        Some(_) => Ok(Some(view_node(alloc, t, id, MAX_NODE_DEPTH)?)),
        None => Ok(None),
    }
}
