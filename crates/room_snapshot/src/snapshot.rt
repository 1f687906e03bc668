//! A snapshot: the state of a room.
ghost use Rattle.std.specs.Prelude.{◌≡◌, IfOk, IfSome, None, option_map};
ghost use Rattle.room_nodes.specs.Shape.{empty_tree};
ghost use Rattle.room_log.specs.Follows.{IsValidState};
ghost use Rattle.room_bytes.specs.Reading.{Gives};
ghost use Rattle.room_snapshot.specs.Bounds.{state_of, HasSnapshot};
ghost use Rattle.room_snapshot.specs.Reading.{parts_at, snapshot_of};
ghost use Rattle.room_snapshot.specs.Laws.{IsSnapshot, IsNoSnapshot};

use crate::checking::check;
use crate::reading::{sessions_of, tree_of};
use room_bytes::{Format, Misread, Sessions, u64_of};
use room_json::NoMemory;
use room_tree::Tree;
use std::alloc::Global;

/// The number of updates so far, the sessions of actors 1, 2, .. in order, and the tree.
#[derive(Drop)]
pub struct Snapshot<T: Tree> {
    pub count: u64,
    pub sessions: Sessions,
    pub tree: T,
}

#[tactic(auto, unfolding(crate::specs::Reading::parts_at))]
fn parts_of<T: Tree>(
    alloc: Global,
    into: T,
    f: Format,
    bytes: &[u8],
) -> Result<(Snapshot<T>, &[u8]), Misread>
    requires { T.nodes into ≡ empty_tree }
    ensures { Gives (λ x. (state_of x.0.count x.0.sessions (T.nodes x.0.tree), x.1.now)) result (parts_at f bytes.now) }
{
    let (count, rest) = u64_of(bytes)?;
    let (sessions, rest) = sessions_of(alloc, f, rest)?;
    let (tree, rest) = tree_of(alloc, into, rest)?;
    Ok((
        Snapshot {
            count,
            sessions,
            tree,
        },
        rest,
    ))
}

#[tactic(auto, unfolding(crate::specs::Reading::snapshot_of))]
fn whole<T: Tree>(alloc: Global, into: T, f: Format, bytes: &[u8]) -> Result<Snapshot<T>, Misread>
    requires { T.nodes into ≡ empty_tree }
    ensures value { Gives (λ s. state_of s.count s.sessions (T.nodes s.tree)) result (snapshot_of f bytes.now) }
    ensures bounds { IfOk result (λ s. HasSnapshot f (state_of s.count s.sessions (T.nodes s.tree))) }
{
    let (snapshot, _) = parts_of(alloc, into, f, bytes)?;
    check(alloc, f, &snapshot, bytes)?;
    Ok(snapshot)
}

/// The state whose snapshot these bytes are in that format, its tree put into a tree of the root alone; None exactly
/// where there is none.
///
/// The calls made of the tree grow with the number of nodes. Each node that was read is written once more, by itself,
/// to see that these are its bytes. Fails only where memory runs out.
pub fn read_snapshot<T: Tree>(
    alloc: Global,
    empty: T,
    b: &[u8],
    f: Format,
) -> Result<Option<Snapshot<T>>, NoMemory>
    requires { T.nodes empty ≡ empty_tree }
    ensures found { IfOk result
        (λ r. IfSome r (λ s. IsSnapshot f b.now (state_of s.count s.sessions (T.nodes s.tree)))) }
    ensures valid { IfOk result (λ r. IfSome r (λ s. IsValidState (state_of s.count s.sessions (T.nodes s.tree)))) }
    ensures none { IfOk result (λ r. r ≡ None → IsNoSnapshot f b.now) }
    ensures value { IfOk result
        (λ r. option_map (λ s. state_of s.count s.sessions (T.nodes s.tree)) r ≡ snapshot_of f b.now) }
{
    match whole(alloc, empty, f, b) {
        Ok(snapshot) => Ok(Some(snapshot)),
        Err(Misread::NoValue) => Ok(None),
        Err(Misread::Memory) => Err(NoMemory),
    }
}
