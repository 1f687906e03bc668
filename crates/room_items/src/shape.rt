//! One item and its node.
ghost use Rattle.std.specs.Prelude.{◌≡◌, ◌++◌, [], ◌∷◌, IfOk, OnOk, option_map, option_and_then, codes, pos, Some};
ghost use Rattle.std.specs.Option.{option_copied};
ghost use Rattle.room_json.specs.Value.{merged, as_text, as_whole};
ghost use Rattle.room_json.specs.Fields.{field_of};
ghost use Rattle.room_json.specs.View.{json_of};
ghost use Rattle.room_items.specs.Items.{kind_number, content_out, place_out, node_out, item_there};
ghost use Rattle.room_items.specs.Items.{as_node, as_pair, kind_in, kind_of_number};
ghost use Rattle.room_items.specs.Items.{row_pair, row_in, root_pair, root_in};

use crate::row::Row;
use room_ids::{NodeId, same_id};
use room_json::{Copied, Items, Json, Members, NoMemory, Text, field, put, whole};
use room_nodes::{Kind, Node};
use std::alloc::Global;

fn node_id(v: &Json) -> Option<NodeId>
    ensures { result ≡ as_node (json_of v.now) }
{
    NodeId::read(v.as_text()?.as_bytes())
}

fn node_at(v: &Json, name: &str) -> Option<NodeId>
    ensures { result ≡ option_and_then as_node (field_of name.now (json_of v.now)) }
{
    node_id(field(v, name)?)
}

fn object_kind(alloc: Global, v: &Json) -> Result<Option<Kind>, NoMemory>
    ensures { IfOk result (λ k. k ≡ kind_of_number (json_of v.now) 0) }
{
    match field(v, "data") {
        Some(found) => match found.as_object() {
            Some(fields) => Ok(Some(Kind::Object(fields.copy(alloc)?))),
            None => Ok(None),
        },
        None => Ok(None),
    }
}

#[tactic(auto, using(room_json::proofs::Again::json_again))]
fn register_kind(alloc: Global, v: &Json) -> Result<Option<Kind>, NoMemory>
    ensures { IfOk result (λ k. k ≡ kind_of_number (json_of v.now) 3) }
{
    match field(v, "data") {
        Some(found) => Ok(Some(Kind::Register(found.copy(alloc)?))),
        None => Ok(None),
    }
}

fn type_of(v: &Json) -> Option<i64>
    ensures { result ≡ option_and_then as_whole (field_of (codes "type") (json_of v.now)) }
{
    field(v, "type")?.as_int()
}

fn read_kind(alloc: Global, v: &Json) -> Result<Option<Kind>, NoMemory>
    ensures { IfOk result (λ k. k ≡ kind_in (json_of v.now)) }
{
    match type_of(v) {
        Some(0) => object_kind(alloc, v),
        Some(1) => Ok(Some(Kind::List)),
        Some(2) => Ok(Some(Kind::Map)),
        Some(3) => register_kind(alloc, v),
        _ => Ok(None),
    }
}

fn read_pair(v: &Json) -> Option<(&Json, &Json)>
    ensures { option_map (λ p. (json_of p.0.now, json_of p.1.now)) result ≡ as_pair (json_of v.now) }
{
    let items = v.as_list()?;
    if items.len() != 2 {
        return None;
    }
    Some((items.get(0)?, items.get(1)?))
}

fn read_key(alloc: Global, v: &Json) -> Result<Option<Text>, NoMemory>
    ensures { IfOk result (λ k. k ≡ option_and_then as_text (field_of (codes "parentKey") (json_of v.now))) }
{
    match field(v, "parentKey") {
        Some(found) => match found.as_text() {
            Some(key) => Ok(Some(key.copy(alloc)?)),
            None => Ok(None),
        },
        None => Ok(None),
    }
}

fn read_pair_row(alloc: Global, id: &Json, node: &Json) -> Result<Option<Row>, NoMemory>
    ensures { IfOk result (λ i. i ≡ row_pair (json_of id.now, json_of node.now)) }
{
    let Some(id) = node_id(id) else {
        return Ok(None);
    };
    let Some(kind) = read_kind(alloc, node)? else {
        return Ok(None);
    };
    let Some(parent) = node_at(node, "parentId") else {
        return Ok(None);
    };
    let Some(key) = read_key(alloc, node)? else {
        return Ok(None);
    };
    Ok(Some(Row {
        id,
        parent,
        key,
        kind,
    }))
}

/// The node below the root that an item tells of.
pub(crate) fn read_row(alloc: Global, v: &Json) -> Result<Option<Row>, NoMemory>
    ensures { IfOk result (λ i. i ≡ row_in (json_of v.now)) }
{
    match read_pair(v) {
        Some((id, node)) => read_pair_row(alloc, id, node),
        None => Ok(None),
    }
}

fn read_pair_root(alloc: Global, id: &Json, node: &Json) -> Result<Option<Kind>, NoMemory>
    ensures { IfOk result (λ k. k ≡ root_pair (json_of id.now, json_of node.now)) }
{
    match node_id(id) {
        Some(id) => {
            if same_id(&id, &NodeId::Root) {
                read_kind(alloc, node)
            } else {
                Ok(None)
            }
        }
        None => Ok(None),
    }
}

/// What the root is, where an item tells of it.
pub(crate) fn read_root(alloc: Global, v: &Json) -> Result<Option<Kind>, NoMemory>
    ensures { IfOk result (λ k. k ≡ root_in (json_of v.now)) }
{
    match read_pair(v) {
        Some((id, node)) => read_pair_root(alloc, id, node),
        None => Ok(None),
    }
}

fn number_of(kind: &Kind) -> u32
    ensures { result ≡ kind_number kind.now }
{
    match kind {
        Kind::Object(_) => 0,
        Kind::List => 1,
        Kind::Map => 2,
        Kind::Register(_) => 3,
    }
}

fn put_data(alloc: Global, members: &mut Members, kind: &Kind) -> Result<(), NoMemory>
    ensures { OnOk result (members.new ≡ merged members.old (content_out kind.now)) }
{
    match kind {
        Kind::List | Kind::Map => Ok(()),
        Kind::Object(fields) => put(alloc, members, "data", Json::Object(fields.copy(alloc)?)),
        Kind::Register(value) => put(alloc, members, "data", value.copy(alloc)?),
    }
}

fn put_place(alloc: Global, members: &mut Members, id: &NodeId, node: &Node) -> Result<(), NoMemory>
    ensures { OnOk result (members.new ≡ merged members.old (place_out id.now node.now)) }
{
    if same_id(id, &NodeId::Root) {
        return Ok(());
    }
    put(
        alloc,
        members,
        "parentId",
        Json::Text(node.parent.text(alloc)?),
    )?;
    put(
        alloc,
        members,
        "parentKey",
        Json::Text(node.key.copy(alloc)?),
    )
}

#[tactic(auto, using(crate::proofs::Merging::merged_append))]
fn write_node(alloc: Global, id: &NodeId, node: &Node) -> Result<Json, NoMemory>
    ensures { IfOk result (λ v. json_of v ≡ node_out id.now (Some node.now)) }
{
    let mut members = Members::new(alloc);
    put(
        alloc,
        &mut members,
        "type",
        Json::Int(whole(number_of(&node.kind))),
    )?;
    put_data(alloc, &mut members, &node.kind)?;
    put_place(alloc, &mut members, id, node)?;
    Ok(Json::Object(members))
}

/// The item of a node.
pub(crate) fn write_item(alloc: Global, id: &NodeId, node: Option<&Node>) -> Result<Json, NoMemory>
    ensures { IfOk result (λ v. json_of v ≡ item_there id.now (option_copied node.entry)) }
{
    let text = Json::Text(id.text(alloc)?);
    let node = match node {
        Some(node) => write_node(alloc, id, node)?,
        None => Json::Null,
    };
    let mut pair = Items::new(alloc);
    pair.push(text)?;
    pair.push(node)?;
    Ok(Json::List(pair))
}
