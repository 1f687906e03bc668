//! Writing entries and groups.
ghost use Rattle.std.specs.Prelude.{◌≡◌, ◌<◌, ◌^◌, ◌++◌, ◌∷◌, true, Some, length, map, IfOk, OnOk};
ghost use Rattle.std.specs.List.{flat_map};
ghost use Rattle.room_json.specs.View.{json_of, members_view};
ghost use Rattle.room_json.specs.Value.{text_of};
ghost use Rattle.room_bytes.specs.Spelling.{u32_bytes, u64_bytes, text_bytes, json_bytes, id_bytes, field_bytes};
ghost use Rattle.room_bytes.specs.Spelling.{fields_bytes, replaced_bytes, kind_bytes, kind_code, body_bytes};
ghost use Rattle.room_bytes.specs.Spelling.{name_bytes, entry_bytes, group_bytes};
ghost use Rattle.room_bytes.specs.Bounds.{IsCounted, AreCountedFields, IsCountedKind, IsCountedBody};
ghost use Rattle.room_bytes.specs.Bounds.{AreCountedBodies, IsCountedEntry, AreCountedEntries};
ghost use Rattle.room_bytes.specs.Bounds.{logged, is_written, are_written};
ghost use Rattle.room_bytes.specs.Reading.{entry_of, group_of};
ghost use Rattle.room_bytes.specs.declared.entries.Format.TheVariants.{Two};

use crate::entries::{Entries, Entry, Format};
use room_ids::NodeId;
use room_json::{Bytes, Json, Members, NoMemory, Sound, Text, write};
use room_nodes::{Body, Kind};
use std::alloc::Global;
use std::collections::BTreeMap;

#[tactic(auto, unfolding(crate::specs::Spelling::u32_bytes))]
fn put_u32(out: &mut Vec<u8>, n: u32) -> Result<(), NoMemory>
    ensures { OnOk result (out.new.items ≡ out.old.items ++ u32_bytes n) }
{
    out.extend_from_slice(&n.to_be_bytes())?;
    Ok(())
}

/// Appends a number in eight bytes.
#[tactic(auto, unfolding(crate::specs::Spelling::u64_bytes))]
pub fn put_u64(out: &mut Vec<u8>, n: u64) -> Result<(), NoMemory>
    ensures { OnOk result (out.new.items ≡ out.old.items ++ u64_bytes n) }
{
    out.extend_from_slice(&n.to_be_bytes())?;
    Ok(())
}

/// Appends the number of the items of a list in four bytes. A list holds fewer than 2^32 items; more are out of memory.
pub fn put_count(out: &mut Vec<u8>, n: u64) -> Result<(), NoMemory>
    ensures bytes { OnOk result (out.new.items ≡ out.old.items ++ u32_bytes n) }
    ensures counted { OnOk result (n < 2 ^ 32) }
{
    if n >= 1 << 32 {
        return Err(NoMemory);
    }
    put_u32(out, n as u32)?;
    Ok(())
}

/// Appends a text behind its length.
#[tactic(auto, unfolding(crate::specs::Spelling::text_bytes))]
pub fn put_text(out: &mut Vec<u8>, text: &Text) -> Result<(), NoMemory>
    ensures bytes { OnOk result (out.new.items ≡ out.old.items ++ text_bytes text.now) }
    ensures counted { OnOk result (IsCounted text.now) }
{
    put_count(out, text.len())?;
    out.extend_from_slice(text.as_bytes())?;
    Ok(())
}

#[tactic(auto, unfolding(crate::specs::Spelling::json_bytes))]
fn put_json(alloc: Global, out: &mut Vec<u8>, value: &Json) -> Result<(), NoMemory>
    ensures bytes { OnOk result (out.new.items ≡ out.old.items ++ json_bytes (json_of value.now)) }
    ensures counted { OnOk result (IsCounted (text_of (json_of value.now))) }
{
    let text = write(alloc, value)?;
    put_text(out, &text)?;
    Ok(())
}

/// Appends an id.
#[tactic(auto, unfolding(crate::specs::Spelling::id_bytes))]
pub fn put_id(out: &mut Vec<u8>, id: &NodeId) -> Result<(), NoMemory>
    ensures { OnOk result (out.new.items ≡ out.old.items ++ id_bytes id.now) }
{
    match id {
        NodeId::Root => {
            out.push(0)?;
            Ok(())
        }
        NodeId::Made(stamp) => {
            out.push(1)?;
            put_u32(out, stamp.actor())?;
            put_u64(out, stamp.clock())?;
            Ok(())
        }
    }
}

#[tactic(auto, unfolding(crate::specs::Spelling::field_bytes))]
fn put_field(alloc: Global, out: &mut Vec<u8>, name: &Text, value: &Json) -> Result<(), NoMemory>
    ensures bytes { OnOk result (out.new.items ≡ out.old.items ++ field_bytes (name.now, json_of value.now)) }
    ensures counted { OnOk result (IsCounted name.now × IsCounted (text_of (json_of value.now))) }
{
    put_text(out, name)?;
    put_json(alloc, out, value)?;
    Ok(())
}

fn put_each_field(
    alloc: Global,
    out: &mut Vec<u8>,
    fields: &BTreeMap<Text, Json>,
) -> Result<(), NoMemory>
    ensures bytes { OnOk result
        (out.new.items ≡ out.old.items ++ flat_map field_bytes (members_view fields.now.entries)) }
    ensures counted { OnOk result (AreCountedFields (members_view fields.now.entries)) }
{
    for (name, value) in fields.iter() {
        put_field(alloc, out, name, value)?;
    }
    Ok(())
}

#[tactic(auto, unfolding(crate::specs::Spelling::fields_bytes))]
fn put_fields(alloc: Global, out: &mut Vec<u8>, fields: &Members) -> Result<(), NoMemory>
    ensures bytes { OnOk result (out.new.items ≡ out.old.items ++ fields_bytes fields.now) }
    ensures counted { OnOk result (IsCounted fields.now × AreCountedFields fields.now) }
{
    put_count(out, fields.len())?;
    put_each_field(alloc, out, fields.as_map())?;
    Ok(())
}

#[tactic(auto, unfolding(crate::specs::Spelling::replaced_bytes))]
fn put_replaced(out: &mut Vec<u8>, replaces: &Option<NodeId>) -> Result<(), NoMemory>
    ensures { OnOk result (out.new.items ≡ out.old.items ++ replaced_bytes replaces.now) }
{
    match replaces {
        None => {
            out.push(0)?;
            Ok(())
        }
        Some(id) => {
            out.push(1)?;
            put_id(out, id)?;
            Ok(())
        }
    }
}

fn code_of(kind: &Kind) -> u8
    ensures { result ≡ kind_code kind.now }
{
    match kind {
        Kind::List => 2,
        Kind::Object(_) => 4,
        Kind::Map => 7,
        Kind::Register(_) => 8,
    }
}

/// Appends the fields of an object or the value of a register.
#[tactic(auto, unfolding(crate::specs::Spelling::kind_bytes))]
pub fn put_kind(alloc: Global, out: &mut Vec<u8>, kind: &Kind) -> Result<(), NoMemory>
    ensures bytes { OnOk result (out.new.items ≡ out.old.items ++ kind_bytes kind.now) }
    ensures counted { OnOk result (IsCountedKind kind.now) }
{
    match kind {
        Kind::List | Kind::Map => Ok(()),
        Kind::Object(fields) => {
            put_fields(alloc, out, fields)?;
            Ok(())
        }
        Kind::Register(value) => {
            put_json(alloc, out, value)?;
            Ok(())
        }
    }
}

/// The code, the node and the key of an operation.
fn put_head(out: &mut Vec<u8>, code: u8, node: &NodeId) -> Result<(), NoMemory>
    ensures { OnOk result (out.new.items ≡ out.old.items ++ code ∷ id_bytes node.now) }
{
    out.push(code)?;
    put_id(out, node)?;
    Ok(())
}

#[tactic(auto, unfolding(crate::specs::Spelling::body_bytes))]
fn put_body(alloc: Global, out: &mut Vec<u8>, body: &Body) -> Result<(), NoMemory>
    ensures bytes { OnOk result (out.new.items ≡ out.old.items ++ body_bytes body.now) }
    ensures counted { OnOk result (IsCountedBody body.now) }
{
    match body {
        Body::SetKey { node, key } => {
            put_head(out, 1, node)?;
            put_text(out, key)?;
            Ok(())
        }
        Body::Create {
            node,
            parent,
            key,
            replaces,
            kind,
        } => {
            put_head(out, code_of(kind), node)?;
            put_id(out, parent)?;
            put_text(out, key)?;
            put_replaced(out, replaces)?;
            put_kind(alloc, out, kind)?;
            Ok(())
        }
        Body::Update { node, fields } => {
            put_head(out, 3, node)?;
            put_fields(alloc, out, fields)?;
            Ok(())
        }
        Body::Delete { node } => {
            put_head(out, 5, node)?;
            Ok(())
        }
        Body::DeleteKey { node, key } => {
            put_head(out, 6, node)?;
            put_text(out, key)?;
            Ok(())
        }
    }
}

fn put_each_body(alloc: Global, out: &mut Vec<u8>, bodies: &[Body]) -> Result<(), NoMemory>
    ensures bytes { OnOk result (out.new.items ≡ out.old.items ++ flat_map body_bytes bodies.now) }
    ensures counted { OnOk result (AreCountedBodies bodies.now) }
{
    for body in bodies {
        put_body(alloc, out, body)?;
    }
    Ok(())
}

/// Appends a name, in the second format.
#[tactic(auto, unfolding(crate::specs::Spelling::name_bytes))]
pub fn put_name(out: &mut Vec<u8>, f: Format, name: &Text) -> Result<(), NoMemory>
    ensures bytes { OnOk result (out.new.items ≡ out.old.items ++ name_bytes f name.now) }
    ensures counted { OnOk result (IsCounted name.now) }
{
    if name.len() >= 1 << 32 {
        return Err(NoMemory);
    }
    match f {
        Format::One => Ok(()),
        Format::Two => {
            put_text(out, name)?;
            Ok(())
        }
    }
}

/// Appends the bytes of an entry.
#[tactic(auto, unfolding(crate::specs::Spelling::entry_bytes))]
pub(crate) fn put_entry(
    alloc: Global,
    out: &mut Vec<u8>,
    f: Format,
    entry: &Entry,
) -> Result<(), NoMemory>
    ensures bytes { OnOk result (out.new.items ≡ out.old.items ++ entry_bytes f (logged entry.now)) }
    ensures counted { OnOk result (IsCountedEntry (logged entry.now)) }
{
    match entry {
        Entry::Join { actor, key, name } => {
            out.push(1)?;
            put_u32(out, *actor)?;
            put_u64(out, *key)?;
            put_name(out, f, name)?;
            Ok(())
        }
        Entry::Update {
            actor,
            first,
            bodies,
        } => {
            out.push(2)?;
            put_u32(out, *actor)?;
            put_u64(out, *first)?;
            put_count(out, bodies.len())?;
            put_each_body(alloc, out, bodies.as_slice())?;
            Ok(())
        }
    }
}

fn put_each_entry(alloc: Global, out: &mut Vec<u8>, entries: &[Entry]) -> Result<(), NoMemory>
    ensures bytes { OnOk result
        (out.new.items ≡ out.old.items ++ flat_map (entry_bytes Two) (map logged entries.now)) }
    ensures counted { OnOk result (AreCountedEntries (map logged entries.now)) }
{
    for entry in entries {
        put_entry(alloc, out, Format::Two, entry)?;
    }
    Ok(())
}

/// Appends the bytes of a group.
#[tactic(auto, unfolding(crate::specs::Spelling::group_bytes))]
pub(crate) fn put_group(alloc: Global, out: &mut Vec<u8>, entries: &[Entry]) -> Result<(), NoMemory>
    ensures bytes { OnOk result (out.new.items ≡ out.old.items ++ group_bytes (map logged entries.now)) }
    ensures counted { OnOk result (IsCounted entries.now × AreCountedEntries (map logged entries.now)) }
{
    put_count(out, entries.len() as u64)?;
    put_each_entry(alloc, out, entries)?;
    Ok(())
}

/// The bytes of an entry in the second format. They are read again as the entry where it has an operation or is a join,
/// and none of its values is too deep.
pub fn write_entry(alloc: Global, e: &Entry) -> Result<Bytes, NoMemory>
    ensures bytes { IfOk result (λ b. b ≡ entry_bytes Two (logged e.now)) }
    ensures again { IfOk result (λ b. is_written Two (logged e.now) ≡ true → entry_of Two b ≡ Some (logged e.now)) }
{
    let mut out = Vec::new(alloc);
    put_entry(alloc, &mut out, Format::Two, e)?;
    e.sound();
    Ok(Bytes::from_vec(out))
}

/// The bytes of a group.
pub fn write_group(alloc: Global, g: &Entries) -> Result<Bytes, NoMemory>
    ensures bytes { IfOk result (λ b. b ≡ group_bytes (map logged g.now)) }
    ensures again { IfOk result (λ b. are_written (map logged g.now) ≡ true → group_of b ≡ Some (map logged g.now)) }
{
    let mut out = Vec::new(alloc);
    put_group(alloc, &mut out, g.as_slice())?;
    g.sound();
    Ok(Bytes::from_vec(out))
}
