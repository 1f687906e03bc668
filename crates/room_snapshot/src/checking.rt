//! Whether bytes are those that are written of a state.
ghost use Rattle.std.specs.Prelude.{◌≡◌, ◌≤◌, ◌<◌, ◌^◌, true, nat_le, length, map, IfOk};
ghost use Rattle.std.specs.List.{flat_map};
ghost use Rattle.std.specs.Option.{option_copied};
ghost use Rattle.room_nodes.specs.Shallow.{IsShallowTree};
ghost use Rattle.room_log.specs.Follows.{most, IsValidSession, AreValidSessions};
ghost use Rattle.room_bytes.specs.Reading.{Gives, behind as what_is_behind};
ghost use Rattle.room_bytes.specs.Spelling.{u32_bytes, u64_bytes};
ghost use Rattle.room_snapshot.specs.Bounds.{kept, state_of, all_by, is_name, is_session};
ghost use Rattle.room_snapshot.specs.Bounds.{is_shallow_there, is_shallow_at};
ghost use Rattle.room_snapshot.specs.Bounds.{IsName, AreNamed, HasSnapshot};
ghost use Rattle.room_snapshot.specs.Bounds.{IsCountedThere, AreCountedAt, AreCountedNodes};
ghost use Rattle.room_snapshot.specs.Reading.{behind_if, checked};
ghost use Rattle.room_snapshot.specs.Spelling.{session_bytes, bytes_there, bytes_at, sessions_bytes, tree_bytes};
ghost use Rattle.room_ids.specs.declared.ids.NodeId.TheVariants.{Root};
ghost use Rattle.room_nodes.specs.Preorder.{preorder};

use crate::order::order;
use crate::snapshot::Snapshot;
use crate::writing::{put_session, put_there};
use room_bytes::{Format, Misread, Session, Sessions, behind, is_shallow_kind, put_count, put_u64};
use room_ids::NodeId;
use room_json::{Sound, Text};
use room_nodes::Node;
use room_tree::Tree;
use std::alloc::Global;

/// The greatest clock, and the greatest number of updates: 2^53 - 1.
const MOST: u64 = 9007199254740991;

#[tactic(auto, unfolding(crate::specs::Reading::behind_if))]
fn count_behind<'a>(alloc: Global, count: u64, bytes: &'a [u8]) -> Result<&'a [u8], Misread>
    ensures value { Gives (λ x. x.now) result (behind_if (nat_le count most) (u64_bytes count) bytes.now) }
    ensures bounds { IfOk result (λ _. count ≤ most) }
{
    if count > MOST {
        return Err(Misread::NoValue);
    }
    let mut front = Vec::new(alloc);
    put_u64(&mut front, count)?;
    let Some(rest) = behind(bytes, front.as_slice()) else {
        return Err(Misread::NoValue);
    };
    Ok(rest)
}

fn number_behind<'a>(alloc: Global, number: u64, bytes: &'a [u8]) -> Result<&'a [u8], Misread>
    ensures value { Gives (λ x. x.now) result (what_is_behind (u32_bytes number) bytes.now) }
    ensures few { IfOk result (λ _. number < 2 ^ 32) }
{
    let mut front = Vec::new(alloc);
    put_count(&mut front, number)?;
    let Some(rest) = behind(bytes, front.as_slice()) else {
        return Err(Misread::NoValue);
    };
    Ok(rest)
}

fn is_name(f: Format, name: &Text) -> bool
    ensures { result ≡ is_name f name.now }
{
    match f {
        Format::One => name.as_bytes().is_empty(),
        Format::Two => true,
    }
}

fn is_session(f: Format, session: &Session) -> bool
    ensures { result ≡ is_session f (kept session.now) }
{
    session.last <= MOST && is_name(f, &session.name)
}

#[tactic(auto, unfolding(crate::specs::Reading::behind_if))]
fn session_behind<'a>(
    alloc: Global,
    f: Format,
    session: &Session,
    bytes: &'a [u8],
) -> Result<&'a [u8], Misread>
    ensures value { Gives (λ x. x.now) result
        (behind_if (is_session f (kept session.now)) (session_bytes f (kept session.now)) bytes.now) }
    ensures valid { IfOk result (λ _. IsValidSession (kept session.now)) }
    ensures named { IfOk result (λ _. IsName f (kept session.now).name) }
{
    let _key = session.key;
    session.name.sound();
    if !is_session(f, session) {
        return Err(Misread::NoValue);
    }
    let mut front = Vec::new(alloc);
    put_session(&mut front, f, session)?;
    let Some(rest) = behind(bytes, front.as_slice()) else {
        return Err(Misread::NoValue);
    };
    Ok(rest)
}

fn each_session_behind<'a>(
    alloc: Global,
    f: Format,
    sessions: &[Session],
    bytes: &'a [u8],
) -> Result<&'a [u8], Misread>
    ensures value { Gives (λ x. x.now) result (behind_if (all_by (is_session f) (map kept sessions.now))
        (flat_map (session_bytes f) (map kept sessions.now)) bytes.now) }
    ensures valid { IfOk result (λ _. AreValidSessions (map kept sessions.now)) }
    ensures named { IfOk result (λ _. AreNamed f (map kept sessions.now)) }
{
    let mut rest = bytes;
    for session in sessions {
        rest = session_behind(alloc, f, session, rest)?;
    }
    Ok(rest)
}

#[tactic(auto, using(crate::proofs::Behind::sessions_behind))]
fn sessions_behind<'a>(
    alloc: Global,
    f: Format,
    sessions: &Sessions,
    bytes: &'a [u8],
) -> Result<&'a [u8], Misread>
    ensures value { Gives (λ x. x.now) result (behind_if (all_by (is_session f) (map kept sessions.now))
        (sessions_bytes f (map kept sessions.now)) bytes.now) }
    ensures few { IfOk result (λ _. length sessions.now < 2 ^ 32) }
    ensures valid { IfOk result (λ _. AreValidSessions (map kept sessions.now)) }
    ensures named { IfOk result (λ _. AreNamed f (map kept sessions.now)) }
{
    let rest = number_behind(alloc, sessions.len(), bytes)?;
    let rest = each_session_behind(alloc, f, sessions.as_slice(), rest)?;
    Ok(rest)
}

fn is_shallow_there(node: Option<&Node>) -> bool
    ensures { result ≡ is_shallow_there (option_copied node.entry) }
{
    match node {
        Some(node) => is_shallow_kind(&node.kind),
        None => true,
    }
}

#[tactic(auto, unfolding(crate::specs::Reading::behind_if))]
fn node_behind<'a>(
    alloc: Global,
    id: &NodeId,
    node: Option<&Node>,
    bytes: &'a [u8],
) -> Result<&'a [u8], Misread>
    ensures value { Gives (λ x. x.now) result (behind_if (is_shallow_there (option_copied node.entry))
        (bytes_there id.now (option_copied node.entry)) bytes.now) }
    ensures shallow { IfOk result (λ _. is_shallow_there (option_copied node.entry) ≡ true) }
    ensures counted { IfOk result (λ _. IsCountedThere id.now (option_copied node.entry)) }
{
    if !is_shallow_there(node) {
        return Err(Misread::NoValue);
    }
    let mut front = Vec::new(alloc);
    put_there(alloc, &mut front, id, node)?;
    let Some(rest) = behind(bytes, front.as_slice()) else {
        return Err(Misread::NoValue);
    };
    Ok(rest)
}

fn each_node_behind<'a, T: Tree>(
    alloc: Global,
    t: &T,
    ids: &[NodeId],
    bytes: &'a [u8],
) -> Result<&'a [u8], Misread>
    ensures value { Gives (λ x. x.now) result (behind_if (all_by (is_shallow_at (T.nodes t.now)) ids.now)
        (flat_map (bytes_at (T.nodes t.now)) ids.now) bytes.now) }
    ensures shallow { IfOk result (λ _. all_by (is_shallow_at (T.nodes t.now)) ids.now ≡ true) }
    ensures counted { IfOk result (λ _. AreCountedAt (T.nodes t.now) ids.now) }
{
    let mut rest = bytes;
    for id in ids {
        rest = node_behind(alloc, id, t.node(id), rest)?;
    }
    Ok(rest)
}

#[tactic(auto, using(crate::proofs::Behind::tree_behind))]
fn tree_behind<'a, T: Tree>(alloc: Global, t: &T, bytes: &'a [u8]) -> Result<&'a [u8], Misread>
    ensures value { Gives (λ x. x.now) result
        (behind_if (all_by (is_shallow_at (T.nodes t.now)) (preorder (T.nodes t.now) Root))
        (tree_bytes (T.nodes t.now)) bytes.now) }
    ensures shallow { IfOk result (λ _. IsShallowTree (T.nodes t.now)) }
    ensures counted { IfOk result (λ _. AreCountedNodes (T.nodes t.now)) }
{
    let ids = order(alloc, t)?;
    let rest = number_behind(alloc, ids.len(), bytes)?;
    let rest = each_node_behind(alloc, t, ids.as_slice(), rest)?;
    Ok(rest)
}

/// Whether bytes are all that is written of a state, and it is within the bounds. Each session and each node is written
/// by itself.
#[tactic(auto, using(crate::proofs::Behind::checked_parts))]
pub(crate) fn check<T: Tree>(
    alloc: Global,
    f: Format,
    snapshot: &Snapshot<T>,
    bytes: &[u8],
) -> Result<(), Misread>
    ensures value { Gives (λ _. state_of snapshot.now.count snapshot.now.sessions (T.nodes snapshot.now.tree)) result
        (checked f bytes.now (state_of snapshot.now.count snapshot.now.sessions (T.nodes snapshot.now.tree))) }
    ensures bounds { IfOk result
        (λ _. HasSnapshot f (state_of snapshot.now.count snapshot.now.sessions (T.nodes snapshot.now.tree))) }
{
    let rest = count_behind(alloc, snapshot.count, bytes)?;
    let rest = sessions_behind(alloc, f, &snapshot.sessions, rest)?;
    let rest = tree_behind(alloc, &snapshot.tree, rest)?;
    if !rest.is_empty() {
        return Err(Misread::NoValue);
    }
    Ok(())
}
