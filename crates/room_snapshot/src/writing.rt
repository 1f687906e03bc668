//! Writing a snapshot.
ghost use Rattle.std.specs.Prelude.{◌≡◌, ◌++◌, ◌∷◌, Some, map, IfOk, OnOk};
ghost use Rattle.std.specs.List.{flat_map};
ghost use Rattle.std.specs.Option.{option_copied};
ghost use Rattle.room_items.specs.Items.{kind_number};
ghost use Rattle.room_log.specs.Follows.{IsValidState};
ghost use Rattle.room_bytes.specs.Bounds.{IsCounted, IsCountedKind};
ghost use Rattle.room_bytes.specs.Spelling.{kind_bytes};
ghost use Rattle.room_bytes.specs.declared.entries.Format.TheVariants.{Two};
ghost use Rattle.room_snapshot.specs.Bounds.{kept, state_of, IsCountedPlace, IsCountedThere, AreCountedAt};
ghost use Rattle.room_snapshot.specs.Bounds.{AreNamed, AreCountedNodes};
ghost use Rattle.room_snapshot.specs.Reading.{snapshot_of};
ghost use Rattle.room_snapshot.specs.Spelling.{session_bytes, place_bytes, node_bytes, bytes_there, bytes_at};
ghost use Rattle.room_snapshot.specs.Spelling.{sessions_bytes, tree_bytes, snapshot_bytes};

use crate::order::order;
use room_bytes::{
    Format, Session, Sessions, put_count, put_id, put_kind, put_name, put_text, put_u64,
};
use room_ids::NodeId;
use room_json::{Bytes, NoMemory};
use room_nodes::{Kind, Node};
use room_tree::Tree;
use std::alloc::Global;

/// Appends the bytes of a session.
#[tactic(auto, unfolding(crate::specs::Spelling::session_bytes))]
pub(crate) fn put_session(out: &mut Vec<u8>, f: Format, session: &Session) -> Result<(), NoMemory>
    ensures bytes { OnOk result (out.new.items ≡ out.old.items ++ session_bytes f (kept session.now)) }
    ensures counted { OnOk result (IsCounted session.now.name) }
{
    put_u64(out, session.key)?;
    put_u64(out, session.last)?;
    put_name(out, f, &session.name)?;
    Ok(())
}

fn put_each_session(out: &mut Vec<u8>, sessions: &[Session]) -> Result<(), NoMemory>
    ensures bytes { OnOk result
        (out.new.items ≡ out.old.items ++ flat_map (session_bytes Two) (map kept sessions.now)) }
    ensures counted { OnOk result (AreNamed Two (map kept sessions.now)) }
{
    for session in sessions {
        put_session(out, Format::Two, session)?;
    }
    Ok(())
}

fn number_of(kind: &Kind) -> u8
    ensures { result ≡ kind_number kind.now }
{
    match kind {
        Kind::Object(_) => 0,
        Kind::List => 1,
        Kind::Map => 2,
        Kind::Register(_) => 3,
    }
}

#[tactic(auto, unfolding(crate::specs::Spelling::place_bytes))]
fn put_place(out: &mut Vec<u8>, id: &NodeId, node: &Node) -> Result<(), NoMemory>
    ensures bytes { OnOk result (out.new.items ≡ out.old.items ++ place_bytes id.now node.now) }
    ensures counted { OnOk result (IsCountedPlace id.now node.now) }
{
    match id {
        NodeId::Root => Ok(()),
        NodeId::Made(_) => {
            put_id(out, &node.parent)?;
            put_text(out, &node.key)?;
            Ok(())
        }
    }
}

fn put_content(alloc: Global, out: &mut Vec<u8>, kind: &Kind) -> Result<(), NoMemory>
    ensures bytes { OnOk result (out.new.items ≡ out.old.items ++ kind_number kind.now ∷ kind_bytes kind.now) }
    ensures counted { OnOk result (IsCountedKind kind.now) }
{
    out.push(number_of(kind))?;
    put_kind(alloc, out, kind)?;
    Ok(())
}

#[tactic(auto, unfolding(crate::specs::Spelling::node_bytes))]
fn put_node(alloc: Global, out: &mut Vec<u8>, id: &NodeId, node: &Node) -> Result<(), NoMemory>
    ensures bytes { OnOk result (out.new.items ≡ out.old.items ++ node_bytes id.now node.now) }
    ensures counted { OnOk result (IsCountedPlace id.now node.now × IsCountedKind node.now.kind) }
{
    put_id(out, id)?;
    put_place(out, id, node)?;
    put_content(alloc, out, &node.kind)?;
    Ok(())
}

/// Appends the bytes of a node, nothing where there is none.
#[tactic(auto, unfolding(crate::specs::Spelling::bytes_there))]
pub(crate) fn put_there(
    alloc: Global,
    out: &mut Vec<u8>,
    id: &NodeId,
    node: Option<&Node>,
) -> Result<(), NoMemory>
    ensures bytes { OnOk result (out.new.items ≡ out.old.items ++ bytes_there id.now (option_copied node.entry)) }
    ensures counted { OnOk result (IsCountedThere id.now (option_copied node.entry)) }
{
    match node {
        Some(node) => {
            put_node(alloc, out, id, node)?;
            Ok(())
        }
        None => Ok(()),
    }
}

fn put_each_node<T: Tree>(
    alloc: Global,
    out: &mut Vec<u8>,
    t: &T,
    ids: &[NodeId],
) -> Result<(), NoMemory>
    ensures bytes { OnOk result (out.new.items ≡ out.old.items ++ flat_map (bytes_at (T.nodes t.now)) ids.now) }
    ensures counted { OnOk result (AreCountedAt (T.nodes t.now) ids.now) }
{
    for id in ids {
        put_there(alloc, out, id, t.node(id))?;
    }
    Ok(())
}

#[tactic(auto, unfolding(crate::specs::Spelling::sessions_bytes))]
fn put_sessions(out: &mut Vec<u8>, sessions: &Sessions) -> Result<(), NoMemory>
    ensures bytes { OnOk result (out.new.items ≡ out.old.items ++ sessions_bytes Two (map kept sessions.now)) }
    ensures counted { OnOk result (AreNamed Two (map kept sessions.now)) }
{
    put_count(out, sessions.len())?;
    put_each_session(out, sessions.as_slice())?;
    Ok(())
}

#[tactic(auto, unfolding(crate::specs::Spelling::tree_bytes))]
fn put_tree<T: Tree>(alloc: Global, out: &mut Vec<u8>, t: &T) -> Result<(), NoMemory>
    ensures bytes { OnOk result (out.new.items ≡ out.old.items ++ tree_bytes (T.nodes t.now)) }
    ensures counted { OnOk result (AreCountedNodes (T.nodes t.now)) }
{
    let ids = order(alloc, t)?;
    put_count(out, ids.len())?;
    put_each_node(alloc, out, t, ids.as_slice())?;
    Ok(())
}

#[tactic(auto, unfolding(crate::specs::Spelling::snapshot_bytes))]
fn put_snapshot<T: Tree>(
    alloc: Global,
    out: &mut Vec<u8>,
    count: u64,
    sessions: &Sessions,
    t: &T,
) -> Result<(), NoMemory>
    ensures bytes { OnOk result
        (out.new.items ≡ out.old.items ++ snapshot_bytes Two (state_of count sessions.now (T.nodes t.now))) }
    ensures named { OnOk result (AreNamed Two (map kept sessions.now)) }
    ensures counted { OnOk result (AreCountedNodes (T.nodes t.now)) }
{
    put_u64(out, count)?;
    put_sessions(out, sessions)?;
    put_tree(alloc, out, t)?;
    Ok(())
}

/// The snapshot of a state, in the second format. That of a valid state is read again as that state.
///
/// The calls made of the tree grow with the number of its nodes, and each text is written once.
pub fn write_snapshot<T: Tree>(
    alloc: Global,
    count: u64,
    sessions: &Sessions,
    t: &T,
) -> Result<Bytes, NoMemory>
    ensures bytes { IfOk result (λ b. b ≡ snapshot_bytes Two (state_of count sessions.now (T.nodes t.now))) }
    ensures again { IfOk result (λ b. IsValidState (state_of count sessions.now (T.nodes t.now))
        → snapshot_of Two b ≡ Some (state_of count sessions.now (T.nodes t.now))) }
{
    let mut out = Vec::new(alloc);
    put_snapshot(alloc, &mut out, count, sessions, t)?;
    Ok(Bytes::from_vec(out))
}
