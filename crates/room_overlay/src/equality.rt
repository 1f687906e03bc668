//! Whether operations are equal, and whether a list begins with another.
ghost use Rattle.std.specs.Prelude.{◌≡◌, map};
ghost use Rattle.room_json.specs.Value.{values_of, fields_of};
ghost use Rattle.room_json.specs.View.{json_of, members_view};
ghost use Rattle.room_nodes.specs.Equal.{same_value, same_values, same_fields, same_kind, same_id_in, same_body};
ghost use Rattle.room_nodes.specs.Equal.{same_op, are_first};

use room_ids::{NodeId, same_id};
use room_json::{Json, Text};
use room_nodes::{Body, Kind, Op};
use std::collections::BTreeMap;

#[cycle(same)]
fn same_value(v: &Json, w: &Json) -> bool
    ensures { result ≡ same_value (json_of v.now) (json_of w.now) }
{
    match (v, w) {
        (Json::Null, Json::Null) => true,
        (Json::Flag(a), Json::Flag(b)) => *a == *b,
        (Json::Int(y), Json::Int(z)) => y.get() == z.get(),
        (Json::Text(s), Json::Text(t)) => s == t,
        (Json::List(vs), Json::List(ws)) => same_values(vs.as_slice(), ws.as_slice()),
        (Json::Object(fs), Json::Object(gs)) => same_fields(fs.as_map(), gs.as_map()),
        _ => false,
    }
}

#[cycle(same)]
fn same_values(vs: &[Json], ws: &[Json]) -> bool
    ensures { result ≡ same_values (values_of (map json_of vs.now)) (values_of (map json_of ws.now)) }
{
    let mut others = ws.iter();
    for v in vs {
        match others.next() {
            Some(w) => {
                if !same_value(v, w) {
                    return false;
                }
            }
            None => return false,
        }
    }
    others.next().is_none()
}

#[cycle(same)]
fn same_fields(fs: &BTreeMap<Text, Json>, gs: &BTreeMap<Text, Json>) -> bool
    ensures { result ≡ same_fields (fields_of (members_view fs.now.entries)) (fields_of (members_view gs.now.entries)) }
{
    let mut others = gs.iter();
    for (name, v) in fs.iter() {
        match others.next() {
            Some((key, w)) => {
                if name != key || !same_value(v, w) {
                    return false;
                }
            }
            None => return false,
        }
    }
    others.next().is_none()
}

fn same_kind(k: &Kind, l: &Kind) -> bool
    ensures { result ≡ same_kind k.now l.now }
{
    match (k, l) {
        (Kind::Object(fs), Kind::Object(gs)) => same_fields(fs.as_map(), gs.as_map()),
        (Kind::List, Kind::List) => true,
        (Kind::Map, Kind::Map) => true,
        (Kind::Register(v), Kind::Register(w)) => same_value(v, w),
        _ => false,
    }
}

fn same_replaced(a: &Option<NodeId>, b: &Option<NodeId>) -> bool
    ensures { result ≡ same_id_in a.now b.now }
{
    match (a, b) {
        (None, None) => true,
        (Some(x), Some(y)) => same_id(x, y),
        _ => false,
    }
}

fn same_body(a: &Body, b: &Body) -> bool
    ensures { result ≡ same_body a.now b.now }
{
    match (a, b) {
        (Body::SetKey { node: x, key: j }, Body::SetKey { node: y, key: k }) => same_id(x, y)
            && j == k,
        (
            Body::Create {
                node: x,
                parent: p,
                key: j,
                replaces: r,
                kind: a,
            },
            Body::Create {
                node: y,
                parent: q,
                key: k,
                replaces: s,
                kind: b,
            },
        ) => same_id(x, y) && same_id(p, q) && j == k && same_replaced(r, s) && same_kind(a, b),
        (
            Body::Update {
                node: x,
                fields: fs,
            },
            Body::Update {
                node: y,
                fields: gs,
            },
        ) => { same_id(x, y) && same_fields(fs.as_map(), gs.as_map()) }
        (Body::Delete { node: x }, Body::Delete { node: y }) => same_id(x, y),
        (Body::DeleteKey { node: x, key: j }, Body::DeleteKey { node: y, key: k }) => same_id(x, y)
            && j == k,
        _ => false,
    }
}

fn same_op(a: &Op, b: &Op) -> bool
    ensures { result ≡ same_op a.now b.now }
{
    a.id.0.actor() == b.id.0.actor()
        && a.id.0.clock() == b.id.0.clock()
        && same_body(&a.body, &b.body)
}

/// Whether the second list begins with the first.
pub(crate) fn are_first(ops: &[Op], all: &[Op]) -> bool
    ensures { result ≡ are_first ops.now all.now }
{
    let mut others = all.iter();
    for op in ops {
        match others.next() {
            Some(other) => {
                if !same_op(op, other) {
                    return false;
                }
            }
            None => return false,
        }
    }
    true
}
