//! The tree that items spell.
ghost use Rattle.std.specs.Prelude.{◌≡◌, ◌∷◌, None, IfOk, map, option_map};
ghost use Rattle.room_json.specs.View.{json_of};
ghost use Rattle.room_ids.specs.declared.ids.NodeId.TheVariants.{Root};
ghost use Rattle.room_nodes.specs.Shape.{empty_tree};
ghost use Rattle.room_nodes.specs.declared.nodes.Kind.TheVariants.{Object};
ghost use Rattle.room_items.specs.Items.{rows_in, row_id, ordered_by, tree_under, tree_in};

use crate::order::{order, same_list};
use crate::putting::put_rows;
use crate::row::Row;
use crate::shape::{read_root, read_row};
use room_ids::NodeId;
use room_json::{Items, Json, Members, NoMemory, Seq};
use room_nodes::Kind;
use room_tree::Tree;
use std::alloc::Global;

fn read_rows(alloc: Global, items: &[Json]) -> Result<Option<Seq<Row>>, NoMemory>
    ensures { IfOk result (λ rs. rs ≡ rows_in (map json_of items.now)) }
{
    let mut rows = Seq::new(alloc);
    for v in items {
        match read_row(alloc, v)? {
            Some(row) => rows.push(row)?,
            None => return Ok(None),
        }
    }
    Ok(Some(rows))
}

fn ids_of(alloc: Global, rows: &[Row]) -> Result<Seq<NodeId>, NoMemory>
    ensures { IfOk result (λ s. s ≡ Root ∷ map row_id rows.now) }
{
    let mut ids = Seq::new(alloc);
    ids.push(NodeId::Root)?;
    for row in rows {
        ids.push(row.id)?;
    }
    Ok(ids)
}

fn in_order<T: Tree>(alloc: Global, t: T, ids: &[NodeId]) -> Result<Option<T>, NoMemory>
    ensures { IfOk result (λ r. option_map (λ u. T.nodes u) r ≡ ordered_by ids.now (T.nodes t)) }
{
    let found = order(alloc, &t)?;
    if same_list(found.as_slice(), ids) {
        Ok(Some(t))
    } else {
        Ok(None)
    }
}

fn tree_under<T: Tree>(
    alloc: Global,
    into: T,
    fields: Members,
    rows: Seq<Row>,
) -> Result<Option<T>, NoMemory>
    requires { T.nodes into ≡ empty_tree }
    ensures { IfOk result (λ r. option_map (λ u. T.nodes u) r ≡ tree_under (Object fields) rows) }
{
    let mut into = into;
    let ids = ids_of(alloc, rows.as_slice())?;
    into.reserve(rows.len())?;
    drop(into.swap_fields(&NodeId::Root, fields));
    match put_rows(into, rows) {
        Some(t) => in_order(alloc, t, ids.as_slice()),
        None => Ok(None),
    }
}

#[tactic(auto, using(crate::proofs::Rooted::none_under))]
fn read_from<T: Tree>(
    alloc: Global,
    into: T,
    first: &Json,
    rest: &[Json],
) -> Result<Option<T>, NoMemory>
    requires { T.nodes into ≡ empty_tree }
    ensures { IfOk result (λ r. option_map (λ u. T.nodes u) r ≡ tree_in (json_of first.now ∷ map json_of rest.now)) }
{
    let Some(Kind::Object(fields)) = read_root(alloc, first)? else {
        return Ok(None);
    };
    let Some(rows) = read_rows(alloc, rest)? else {
        return Ok(None);
    };
    tree_under(alloc, into, fields, rows)
}

/// The tree that items spell, put into a tree of the root alone; None where they are no well-formed tree in its own
/// order.
///
/// The calls made of the tree grow with the number of items. Fails only where memory runs out.
pub fn read_items<T: Tree>(alloc: Global, into: T, v: &Items) -> Result<Option<T>, NoMemory>
    requires { T.nodes into ≡ empty_tree }
    ensures { IfOk result (λ r. option_map (λ u. T.nodes u) r ≡ tree_in v.now) }
{
    match v.as_slice() {
        [first, rest @ ..] => read_from(alloc, into, first, rest),
        [] => Ok(None),
    }
}
