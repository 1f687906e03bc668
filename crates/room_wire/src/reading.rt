//! Operations as they are read.
ghost use Rattle.std.specs.Prelude.{◌≡◌, IfOk, IfErr, Ok};
ghost use Rattle.room_json.specs.View.{json_of};
ghost use Rattle.room_nodes.specs.Sound.{IsSoundOp};
ghost use Rattle.room_wire.specs.Wire.{op_in, set_key_in, create_in, made_in, update_in, delete_in, delete_key_in};
ghost use Rattle.room_wire.specs.Wire.{IsFaultOf};

use crate::access::{
    code_at, intent_at, json_at, members_at, node_at, op_id_at, replaced_at, text_at,
};
use crate::code::{Code, Shape};
use crate::fault::{Field, WireFault};
use room_json::{Json, Sound};
use room_nodes::{Body, Kind, Op};
use std::alloc::Global;

/// The operation that a value spells.
///
/// `BadOp` names the first field that is missing or wrong, `Memory` says that memory ran out. Copies the operation's
/// texts and data.
pub fn read_op(alloc: Global, v: &Json) -> Result<Op, WireFault>
    ensures ok { IfOk result (λ op. op_in (json_of v.now) ≡ Ok op) }
    ensures sound { IfOk result IsSoundOp }
    ensures err { IfErr result (IsFaultOf (op_in (json_of v.now))) }
{
    let op = read_coded(alloc, v)?;
    op.sound();
    Ok(op)
}

fn read_coded(alloc: Global, v: &Json) -> Result<Op, WireFault>
    ensures ok { IfOk result (λ op. op_in (json_of v.now) ≡ Ok op) }
    ensures err { IfErr result (IsFaultOf (op_in (json_of v.now))) }
{
    match code_at(v, "type", Field::Kind)? {
        Code::SetKey => read_set_key(alloc, v),
        Code::Create(shape) => read_create(alloc, shape, v),
        Code::Update => read_update(alloc, v),
        Code::Delete => read_delete(v),
        Code::DeleteKey => read_delete_key(alloc, v),
    }
}

fn read_set_key(alloc: Global, v: &Json) -> Result<Op, WireFault>
    ensures ok { IfOk result (λ op. set_key_in (json_of v.now) ≡ Ok op) }
    ensures err { IfErr result (IsFaultOf (set_key_in (json_of v.now))) }
{
    let node = node_at(v, "id", Field::Id)?;
    let id = op_id_at(v, "opId", Field::OpId)?;
    let key = text_at(alloc, v, "parentKey", Field::ParentKey)?;
    Ok(Op {
        id,
        body: Body::SetKey { node, key },
    })
}

fn read_update(alloc: Global, v: &Json) -> Result<Op, WireFault>
    ensures ok { IfOk result (λ op. update_in (json_of v.now) ≡ Ok op) }
    ensures err { IfErr result (IsFaultOf (update_in (json_of v.now))) }
{
    let node = node_at(v, "id", Field::Id)?;
    let id = op_id_at(v, "opId", Field::OpId)?;
    let fields = members_at(alloc, v, "data", Field::Content)?;
    Ok(Op {
        id,
        body: Body::Update { node, fields },
    })
}

fn read_delete(v: &Json) -> Result<Op, WireFault>
    ensures ok { IfOk result (λ op. delete_in (json_of v.now) ≡ Ok op) }
    ensures err { IfErr result (IsFaultOf (delete_in (json_of v.now))) }
{
    let node = node_at(v, "id", Field::Id)?;
    let id = op_id_at(v, "opId", Field::OpId)?;
    Ok(Op {
        id,
        body: Body::Delete { node },
    })
}

fn read_delete_key(alloc: Global, v: &Json) -> Result<Op, WireFault>
    ensures ok { IfOk result (λ op. delete_key_in (json_of v.now) ≡ Ok op) }
    ensures err { IfErr result (IsFaultOf (delete_key_in (json_of v.now))) }
{
    let node = node_at(v, "id", Field::Id)?;
    let id = op_id_at(v, "opId", Field::OpId)?;
    let key = text_at(alloc, v, "key", Field::Key)?;
    Ok(Op {
        id,
        body: Body::DeleteKey { node, key },
    })
}

#[tactic(auto, using(room_json::proofs::Again::json_again))]
fn read_made(alloc: Global, shape: Shape, v: &Json) -> Result<Kind, WireFault>
    ensures ok { IfOk result (λ kind. made_in shape (json_of v.now) ≡ Ok kind) }
    ensures err { IfErr result (IsFaultOf (made_in shape (json_of v.now))) }
{
    match shape {
        Shape::Object => Ok(Kind::Object(members_at(alloc, v, "data", Field::Content)?)),
        Shape::List => Ok(Kind::List),
        Shape::Map => Ok(Kind::Map),
        Shape::Register => Ok(Kind::Register(json_at(alloc, v, "data", Field::Content)?)),
    }
}

fn read_create(alloc: Global, shape: Shape, v: &Json) -> Result<Op, WireFault>
    ensures ok { IfOk result (λ op. create_in shape (json_of v.now) ≡ Ok op) }
    ensures err { IfErr result (IsFaultOf (create_in shape (json_of v.now))) }
{
    let node = node_at(v, "id", Field::Id)?;
    let id = op_id_at(v, "opId", Field::OpId)?;
    let parent = node_at(v, "parentId", Field::ParentId)?;
    let key = text_at(alloc, v, "parentKey", Field::ParentKey)?;
    let kind = read_made(alloc, shape, v)?;
    let _intent = intent_at(v, "intent", Field::Intent)?;
    let replaces = replaced_at(v, "deletedId", Field::DeletedId)?;
    Ok(Op {
        id,
        body: Body::Create {
            node,
            parent,
            key,
            replaces,
            kind,
        },
    })
}
