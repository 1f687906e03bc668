//! The fields of an operation.
ghost use Rattle.std.specs.Prelude.{◌≡◌, IfOk, IfErr, Some, Ok};
ghost use Rattle.room_json.specs.Fields.{field_of, needed, allowed};
ghost use Rattle.room_json.specs.Value.{as_text, as_members};
ghost use Rattle.room_json.specs.View.{json_of};
ghost use Rattle.room_wire.specs.Wire.{as_node, as_op_id, as_intent, as_code, IsFaultOf};

use crate::code::{Code, Shape};
use crate::fault::{Field, WireFault};
use room_ids::{NodeId, OpId};
use room_json::{Copied, Json, Members, Text, field};
use std::alloc::Global;

fn node(v: &Json) -> Option<NodeId>
    ensures { result ≡ as_node (json_of v.now) }
{
    NodeId::read(v.as_text()?.as_bytes())
}

fn op_id(v: &Json) -> Option<OpId>
    ensures { result ≡ as_op_id (json_of v.now) }
{
    OpId::read(v.as_text()?.as_bytes())
}

fn intent(v: &Json) -> Option<bool>
    ensures { result ≡ as_intent (json_of v.now) }
{
    if v.as_text()?.as_str() == "set" {
        Some(true)
    } else {
        None
    }
}

fn code(v: &Json) -> Option<Code>
    ensures { result ≡ as_code (json_of v.now) }
{
    match v.as_int()? {
        1 => Some(Code::SetKey),
        2 => Some(Code::Create(Shape::List)),
        3 => Some(Code::Update),
        4 => Some(Code::Create(Shape::Object)),
        5 => Some(Code::Delete),
        6 => Some(Code::DeleteKey),
        7 => Some(Code::Create(Shape::Map)),
        8 => Some(Code::Create(Shape::Register)),
        _ => None,
    }
}

pub(crate) fn code_at(v: &Json, name: &str, fault: Field) -> Result<Code, WireFault>
    ensures ok { IfOk result (λ x. needed as_code fault (field_of name.now (json_of v.now)) ≡ Ok x) }
    ensures err { IfErr result (IsFaultOf (needed as_code fault (field_of name.now (json_of v.now)))) }
{
    match field(v, name) {
        Some(found) => code(found).ok_or(WireFault::BadOp(fault)),
        None => Err(WireFault::BadOp(fault)),
    }
}

pub(crate) fn node_at(v: &Json, name: &str, fault: Field) -> Result<NodeId, WireFault>
    ensures ok { IfOk result (λ x. needed as_node fault (field_of name.now (json_of v.now)) ≡ Ok x) }
    ensures err { IfErr result (IsFaultOf (needed as_node fault (field_of name.now (json_of v.now)))) }
{
    match field(v, name) {
        Some(found) => node(found).ok_or(WireFault::BadOp(fault)),
        None => Err(WireFault::BadOp(fault)),
    }
}

pub(crate) fn op_id_at(v: &Json, name: &str, fault: Field) -> Result<OpId, WireFault>
    ensures ok { IfOk result (λ x. needed as_op_id fault (field_of name.now (json_of v.now)) ≡ Ok x) }
    ensures err { IfErr result (IsFaultOf (needed as_op_id fault (field_of name.now (json_of v.now)))) }
{
    match field(v, name) {
        Some(found) => op_id(found).ok_or(WireFault::BadOp(fault)),
        None => Err(WireFault::BadOp(fault)),
    }
}

pub(crate) fn text_at(alloc: Global, v: &Json, name: &str, fault: Field) -> Result<Text, WireFault>
    ensures ok { IfOk result (λ x. needed as_text fault (field_of name.now (json_of v.now)) ≡ Ok x) }
    ensures err { IfErr result (IsFaultOf (needed as_text fault (field_of name.now (json_of v.now)))) }
{
    match field(v, name) {
        Some(found) => match found.as_text() {
            Some(text) => Ok(text.copy(alloc)?),
            None => Err(WireFault::BadOp(fault)),
        },
        None => Err(WireFault::BadOp(fault)),
    }
}

pub(crate) fn members_at(
    alloc: Global,
    v: &Json,
    name: &str,
    fault: Field,
) -> Result<Members, WireFault>
    ensures ok { IfOk result (λ x. needed as_members fault (field_of name.now (json_of v.now)) ≡ Ok x) }
    ensures err { IfErr result (IsFaultOf (needed as_members fault (field_of name.now (json_of v.now)))) }
{
    match field(v, name) {
        Some(found) => match found.as_object() {
            Some(members) => Ok(members.copy(alloc)?),
            None => Err(WireFault::BadOp(fault)),
        },
        None => Err(WireFault::BadOp(fault)),
    }
}

pub(crate) fn json_at(alloc: Global, v: &Json, name: &str, fault: Field) -> Result<Json, WireFault>
    ensures ok { IfOk result (λ x. needed Some fault (field_of name.now (json_of v.now)) ≡ Ok (json_of x)) }
    ensures err { IfErr result (IsFaultOf (needed Some fault (field_of name.now (json_of v.now)))) }
{
    match field(v, name) {
        Some(found) => Ok(found.copy(alloc)?),
        None => Err(WireFault::BadOp(fault)),
    }
}

pub(crate) fn intent_at(v: &Json, name: &str, fault: Field) -> Result<Option<bool>, WireFault>
    ensures ok { IfOk result (λ x. allowed as_intent fault (field_of name.now (json_of v.now)) ≡ Ok x) }
    ensures err { IfErr result (IsFaultOf (allowed as_intent fault (field_of name.now (json_of v.now)))) }
{
    match field(v, name) {
        Some(found) => Ok(Some(intent(found).ok_or(WireFault::BadOp(fault))?)),
        None => Ok(None),
    }
}

pub(crate) fn replaced_at(v: &Json, name: &str, fault: Field) -> Result<Option<NodeId>, WireFault>
    ensures ok { IfOk result (λ x. allowed as_node fault (field_of name.now (json_of v.now)) ≡ Ok x) }
    ensures err { IfErr result (IsFaultOf (allowed as_node fault (field_of name.now (json_of v.now)))) }
{
    match field(v, name) {
        Some(found) => Ok(Some(node(found).ok_or(WireFault::BadOp(fault))?)),
        None => Ok(None),
    }
}
