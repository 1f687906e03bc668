//! The parts of a snapshot at the front of bytes, in whatever spelling and order.
ghost use Rattle.std.specs.Prelude.{◌≡◌, map};
ghost use Rattle.room_nodes.specs.Shape.{empty_tree};
ghost use Rattle.room_bytes.specs.Reading.{Gives, each_at};
ghost use Rattle.room_snapshot.specs.Bounds.{kept, rowed};
ghost use Rattle.room_snapshot.specs.Reading.{session_at, content_at, kind_at, root_at, row_at, tree_at, sessions_at};

use crate::putting::rooted;
use crate::row::Row;
use room_bytes::{
    Format, Misread, Session, Sessions, byte_of, fields_of, id_of, json_part, name_of, text_of,
    u32_of, u64_of,
};
use room_json::Seq;
use room_nodes::{Kind, Node};
use room_tree::Tree;
use std::alloc::Global;

#[tactic(auto, unfolding(crate::specs::Reading::session_at))]
fn session_of(alloc: Global, f: Format, bytes: &[u8]) -> Result<(Session, &[u8]), Misread>
    ensures { Gives (λ x. (kept x.0, x.1.now)) result (session_at f bytes.now) }
{
    let (key, rest) = u64_of(bytes)?;
    let (last, rest) = u64_of(rest)?;
    let (name, rest) = name_of(alloc, f, rest)?;
    Ok((Session { key, last, name }, rest))
}

fn each_session(
    alloc: Global,
    f: Format,
    count: u32,
    bytes: &[u8],
) -> Result<(Sessions, &[u8]), Misread>
    ensures { Gives (λ x. (map kept x.0, x.1.now)) result (each_at (session_at f) count bytes.now) }
{
    let mut sessions = Sessions::new(alloc);
    let mut rest = bytes;
    for _ in 0..count {
        let (session, after) = session_of(alloc, f, rest)?;
        sessions.push(session)?;
        rest = after;
    }
    Ok((sessions, rest))
}

/// The sessions at the front, behind their number.
#[tactic(auto, unfolding(crate::specs::Reading::sessions_at))]
pub(crate) fn sessions_of(
    alloc: Global,
    f: Format,
    bytes: &[u8],
) -> Result<(Sessions, &[u8]), Misread>
    ensures { Gives (λ x. (map kept x.0, x.1.now)) result (sessions_at f bytes.now) }
{
    let (count, rest) = u32_of(bytes)?;
    let (sessions, rest) = each_session(alloc, f, count, rest)?;
    Ok((sessions, rest))
}

#[tactic(auto, using(room_json::proofs::Again::json_again), unfolding(crate::specs::Reading::content_at))]
fn content_of(alloc: Global, number: u8, bytes: &[u8]) -> Result<(Kind, &[u8]), Misread>
    ensures { Gives (λ x. (x.0, x.1.now)) result (content_at number bytes.now) }
{
    match number {
        0 => {
            let (fields, rest) = fields_of(alloc, bytes)?;
            Ok((Kind::Object(fields), rest))
        }
        1 => Ok((Kind::List, bytes)),
        2 => Ok((Kind::Map, bytes)),
        3 => {
            let (value, rest) = json_part(alloc, bytes)?;
            Ok((Kind::Register(value), rest))
        }
        _ => Err(Misread::NoValue),
    }
}

#[tactic(auto, unfolding(crate::specs::Reading::kind_at))]
fn kind_of(alloc: Global, bytes: &[u8]) -> Result<(Kind, &[u8]), Misread>
    ensures { Gives (λ x. (x.0, x.1.now)) result (kind_at bytes.now) }
{
    let (number, rest) = byte_of(bytes)?;
    content_of(alloc, number, rest)
}

#[tactic(auto, unfolding(crate::specs::Reading::root_at))]
fn root_of(alloc: Global, bytes: &[u8]) -> Result<(Kind, &[u8]), Misread>
    ensures { Gives (λ x. (x.0, x.1.now)) result (root_at bytes.now) }
{
    let (_, rest) = match id_of(bytes) {
        Ok(found) => found,
        Err(fault) => return Err(fault),
    };
    kind_of(alloc, rest)
}

#[tactic(auto, unfolding(crate::specs::Reading::row_at))]
fn row_of(alloc: Global, bytes: &[u8]) -> Result<(Row, &[u8]), Misread>
    ensures { Gives (λ x. (rowed x.0, x.1.now)) result (row_at bytes.now) }
{
    let (id, rest) = match id_of(bytes) {
        Ok(found) => found,
        Err(fault) => return Err(fault),
    };
    let (parent, rest) = match id_of(rest) {
        Ok(found) => found,
        Err(fault) => return Err(fault),
    };
    let (key, rest) = text_of(alloc, rest)?;
    let (kind, rest) = kind_of(alloc, rest)?;
    let node = Node {
        parent,
        key,
        depth: 0,
        kind,
    };
    Ok((Row { id, node }, rest))
}

fn each_row(alloc: Global, count: u32, bytes: &[u8]) -> Result<(Seq<Row>, &[u8]), Misread>
    ensures { Gives (λ x. (map rowed x.0, x.1.now)) result (each_at row_at count bytes.now) }
{
    let mut rows = Seq::new(alloc);
    let mut rest = bytes;
    for _ in 0..count {
        let (row, after) = row_of(alloc, rest)?;
        rows.push(row)?;
        rest = after;
    }
    Ok((rows, rest))
}

/// The tree whose nodes stand at the front, behind their number, put into a tree of the root alone.
#[tactic(auto, unfolding(crate::specs::Reading::tree_at))]
pub(crate) fn tree_of<T: Tree>(alloc: Global, into: T, bytes: &[u8]) -> Result<(T, &[u8]), Misread>
    requires { T.nodes into ≡ empty_tree }
    ensures { Gives (λ x. (T.nodes x.0, x.1.now)) result (tree_at bytes.now) }
{
    let (count, rest) = u32_of(bytes)?;
    let (kind, rest) = root_of(alloc, rest)?;
    let (rows, rest) = each_row(alloc, count.saturating_sub(1), rest)?;
    let tree = rooted(into, kind, rows)?;
    Ok((tree, rest))
}
