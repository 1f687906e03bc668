//! Operations as they are written.
ghost use Rattle.std.specs.Prelude.{◌≡◌, [], IfOk, OnOk, Ok};
ghost use Rattle.room_json.specs.Value.{merged};
ghost use Rattle.room_json.specs.View.{json_of};
ghost use Rattle.room_wire.specs.Laws.{IsKnown, IsKnownOp, IsKnownMaybe, IsAgain};
ghost use Rattle.room_wire.specs.Wire.{op_in};
ghost use Rattle.room_wire.specs.Written.{op_out, body_out, head_out, text_out, id_out};
ghost use Rattle.room_wire.specs.Written.{replaced_out, data_out, kind_code};

use room_ids::{NodeId, OpId};
use room_json::{Copied, Json, Members, NoMemory, Text, put, whole};
use room_nodes::{Body, Kind, Op};
use std::alloc::Global;

/// The operation as JSON: its fields and no others. It is read again as the same operation.
///
/// Copies the operation's texts and data. Fails only where memory runs out.
pub fn write_op(alloc: Global, op: &Op) -> Result<Json, NoMemory>
    ensures value { IfOk result (λ v. json_of v ≡ op_out op.now) }
    ensures again { IfOk result (λ v. op_in (op_out op.now) ≡ Ok op.now) }
{
    let members = write_body(alloc, &op.id, &op.body)?;
    Ok(Json::Object(members))
}

fn write_body(alloc: Global, id: &OpId, body: &Body) -> Result<Members, NoMemory>
    ensures value { IfOk result (λ m. m ≡ merged [] (body_out id.now body.now)) }
    ensures again { IfOk result (λ m. IsAgain id.now body.now) }
{
    match body {
        Body::SetKey { node, key } => write_set_key(alloc, id, node, key),
        Body::Create {
            node,
            parent,
            key,
            replaces,
            kind,
        } => write_create(alloc, id, node, parent, key, replaces, kind),
        Body::Update { node, fields } => write_update(alloc, id, node, fields),
        Body::Delete { node } => write_delete(alloc, id, node),
        Body::DeleteKey { node, key } => write_delete_key(alloc, id, node, key),
    }
}

fn put_text(alloc: Global, members: &mut Members, name: &str, value: &Text) -> Result<(), NoMemory>
    ensures { OnOk result (members.new ≡ merged members.old (text_out name.now value.now)) }
{
    put(alloc, members, name, Json::Text(value.copy(alloc)?))
}

fn put_node(alloc: Global, members: &mut Members, name: &str, node: &NodeId) -> Result<(), NoMemory>
    ensures value { OnOk result (members.new ≡ merged members.old (id_out name.now node.now)) }
    ensures known { IsKnown node.now }
{
    let spelled = node.text(alloc)?;
    put(alloc, members, name, Json::Text(spelled))
}

fn write_head(alloc: Global, code: u32, node: &NodeId, id: &OpId) -> Result<Members, NoMemory>
    ensures value { IfOk result (λ m. m ≡ merged [] (head_out code node.now id.now)) }
    ensures node { IfOk result (λ m. IsKnown node.now) }
    ensures id { IfOk result (λ m. IsKnownOp id.now) }
{
    let mut members = Members::new(alloc);
    put(alloc, &mut members, "type", Json::Int(whole(code)))?;
    put_node(alloc, &mut members, "id", node)?;
    let spelled = id.text(alloc)?;
    put(alloc, &mut members, "opId", Json::Text(spelled))?;
    Ok(members)
}

#[tactic(auto, using(crate::proofs::Law::set_key_again))]
fn write_set_key(alloc: Global, id: &OpId, node: &NodeId, key: &Text) -> Result<Members, NoMemory>
    ensures value { IfOk result (λ m. m ≡ merged [] (body_out id.now (Body.SetKey node.now key.now))) }
    ensures again { IfOk result (λ m. IsAgain id.now (Body.SetKey node.now key.now)) }
{
    let mut members = write_head(alloc, 1, node, id)?;
    put_text(alloc, &mut members, "parentKey", key)?;
    Ok(members)
}

#[tactic(auto, using(crate::proofs::Law::delete_key_again))]
fn write_delete_key(
    alloc: Global,
    id: &OpId,
    node: &NodeId,
    key: &Text,
) -> Result<Members, NoMemory>
    ensures value { IfOk result (λ m. m ≡ merged [] (body_out id.now (Body.DeleteKey node.now key.now))) }
    ensures again { IfOk result (λ m. IsAgain id.now (Body.DeleteKey node.now key.now)) }
{
    let mut members = write_head(alloc, 6, node, id)?;
    put_text(alloc, &mut members, "key", key)?;
    Ok(members)
}

#[tactic(auto, using(crate::proofs::Law::delete_again))]
fn write_delete(alloc: Global, id: &OpId, node: &NodeId) -> Result<Members, NoMemory>
    ensures value { IfOk result (λ m. m ≡ merged [] (body_out id.now (Body.Delete node.now))) }
    ensures again { IfOk result (λ m. IsAgain id.now (Body.Delete node.now)) }
{
    let members = write_head(alloc, 5, node, id)?;
    Ok(members)
}

#[tactic(auto, using(crate::proofs::Law::update_again))]
fn write_update(
    alloc: Global,
    id: &OpId,
    node: &NodeId,
    fields: &Members,
) -> Result<Members, NoMemory>
    ensures value { IfOk result (λ m. m ≡ merged [] (body_out id.now (Body.Update node.now fields.now))) }
    ensures again { IfOk result (λ m. IsAgain id.now (Body.Update node.now fields.now)) }
{
    let mut members = write_head(alloc, 3, node, id)?;
    put(
        alloc,
        &mut members,
        "data",
        Json::Object(fields.copy(alloc)?),
    )?;
    Ok(members)
}

#[tactic(auto, using(crate::proofs::Law::create_again))]
fn write_create(
    alloc: Global,
    id: &OpId,
    node: &NodeId,
    parent: &NodeId,
    key: &Text,
    replaces: &Option<NodeId>,
    kind: &Kind,
) -> Result<Members, NoMemory>
    ensures value { let body = Body.Create node.now parent.now key.now replaces.now kind.now in
        IfOk result (λ m. m ≡ merged [] (body_out id.now body)) }
    ensures again { IfOk result (λ m. IsAgain id.now (Body.Create node.now parent.now key.now replaces.now kind.now)) }
{
    let mut members = write_head(alloc, code_of(kind), node, id)?;
    put_node(alloc, &mut members, "parentId", parent)?;
    put_text(alloc, &mut members, "parentKey", key)?;
    put_data(alloc, &mut members, kind)?;
    put_replaced(alloc, &mut members, replaces)?;
    Ok(members)
}

fn code_of(kind: &Kind) -> u32
    ensures { result ≡ kind_code kind.now }
{
    match kind {
        Kind::List => 2,
        Kind::Object(_) => 4,
        Kind::Map => 7,
        Kind::Register(_) => 8,
    }
}

fn put_data(alloc: Global, members: &mut Members, kind: &Kind) -> Result<(), NoMemory>
    ensures { OnOk result (members.new ≡ merged members.old (data_out kind.now)) }
{
    match kind {
        Kind::List | Kind::Map => Ok(()),
        Kind::Object(fields) => put(alloc, members, "data", Json::Object(fields.copy(alloc)?)),
        Kind::Register(v) => put(alloc, members, "data", v.copy(alloc)?),
    }
}

fn put_replaced(
    alloc: Global,
    members: &mut Members,
    replaces: &Option<NodeId>,
) -> Result<(), NoMemory>
    ensures value { OnOk result (members.new ≡ merged members.old (replaced_out replaces.now)) }
    ensures known { OnOk result (IsKnownMaybe replaces.now) }
{
    match replaces {
        None => Ok(()),
        Some(node) => {
            put(
                alloc,
                members,
                "intent",
                Json::Text(Text::from_str(alloc, "set")?),
            )?;
            put_node(alloc, members, "deletedId", node)
        }
    }
}
