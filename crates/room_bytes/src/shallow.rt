//! Whether an entry has bytes, but for its lengths.
ghost use Rattle.std.specs.Prelude.{◌≡◌};
ghost use Rattle.room_json.specs.View.{members_view};
ghost use Rattle.room_nodes.specs.Shallow.{are_shallow, is_shallow_kind, is_shallow, all_shallow};
ghost use Rattle.room_bytes.specs.Bounds.{is_written, logged};

use crate::entries::{Entry, Format};
use room_json::{Json, Text, depth};
use room_nodes::{Body, Kind};
use std::collections::BTreeMap;

fn are_shallow(fields: &BTreeMap<Text, Json>) -> bool
    ensures { result ≡ are_shallow (members_view fields.now.entries) }
{
    for (_name, value) in fields.iter() {
        if depth(value) > 55 {
            return false;
        }
    }
    true
}

/// Whether no field's value is deeper than 55, and no register's than 56.
pub fn is_shallow_kind(kind: &Kind) -> bool
    ensures { result ≡ is_shallow_kind kind.now }
{
    match kind {
        Kind::Object(fields) => are_shallow(fields.as_map()),
        Kind::List | Kind::Map => true,
        Kind::Register(value) => depth(value) <= 56,
    }
}

fn is_shallow(body: &Body) -> bool
    ensures { result ≡ is_shallow body.now }
{
    match body {
        Body::SetKey { .. } => true,
        Body::Create { kind, .. } => is_shallow_kind(kind),
        Body::Update { fields, .. } => are_shallow(fields.as_map()),
        Body::Delete { .. } => true,
        Body::DeleteKey { .. } => true,
    }
}

fn all_shallow(bodies: &[Body]) -> bool
    ensures { result ≡ all_shallow bodies.now }
{
    for body in bodies {
        if !is_shallow(body) {
            return false;
        }
    }
    true
}

/// Whether an entry has bytes in a format, if its lengths are in range.
pub(crate) fn is_written(f: Format, entry: &Entry) -> bool
    ensures { result ≡ is_written f (logged entry.now) }
{
    match entry {
        Entry::Join { name, .. } => match f {
            Format::One => name.as_bytes().is_empty(),
            Format::Two => true,
        },
        Entry::Update { bodies, .. } => {
            !bodies.as_slice().is_empty() && all_shallow(bodies.as_slice())
        }
    }
}
