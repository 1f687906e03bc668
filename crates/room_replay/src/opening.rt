//! A file that was read is opened: its snapshot, and the entries of its records, each where it follows.
ghost use Rattle.std.specs.Prelude.{◌≡◌, ◌≤◌, ◌<◌, ◌^◌, ◌+◌, ℕ, IfOk};
ghost use Rattle.std.specs.Prelude.{IfErr, IfSome, option_map, Option, length, map, true};
ghost use Rattle.room_nodes.specs.Shape.{empty_tree};
ghost use Rattle.room_bytes.specs.Bounds.{logged, all_written, is_written};
ghost use Rattle.room_bytes.specs.declared.entries.Format.TheVariants.{Two};
ghost use Rattle.room_snapshot.specs.Bounds.{state_of};
ghost use Rattle.room_journal.specs.Records.{size_of};
ghost use Rattle.room_journal.specs.Rest.{end_of};
ghost use Rattle.room_replay.specs.Files.{Files, entries_in, followed, taken, replayed, opened, held_of};
ghost use Rattle.room_replay.specs.Faults.{IsFault};
ghost use Rattle.room_replay.specs.Follow.{AreSound};
ghost use Rattle.room_log.specs.Follows.{IsValidState};

use crate::following::follow;
use room_bytes::{Entries, Format, read_entry, read_group};
use room_journal::JournalFault;
use room_json::{Bytes, NoMemory};
use room_log::valid_after;
use room_snapshot::{Snapshot, read_snapshot};
use room_tree::Tree;
use std::alloc::Global;

/// The entry of a body of the older format.
fn one_entry(alloc: Global, body: &[u8]) -> Result<Option<Entries>, NoMemory>
    ensures entries { IfOk result (λ r. option_map (map logged) r ≡ entries_in Format.One body.now) }
    ensures written { IfOk result (λ r. IfSome r (λ es. all_written (map logged es) ≡ true)) }
    ensures sound { IfOk result (λ r. IfSome r (λ es. AreSound (map logged es))) }
{
    let Some(entry) = read_entry(alloc, body, Format::One)? else {
        return Ok(None);
    };
    let mut entries = Entries::new(alloc);
    entries.push(entry)?;
    Ok(Some(entries))
}

/// The entries of a body.
fn entries_of(alloc: Global, f: Format, body: &[u8]) -> Result<Option<Entries>, NoMemory>
    ensures entries { IfOk result (λ r. option_map (map logged) r ≡ entries_in f body.now) }
    ensures written { IfOk result (λ r. IfSome r (λ es. all_written (map logged es) ≡ true)) }
    ensures sound { IfOk result (λ r. IfSome r (λ es. AreSound (map logged es))) }
{
    match f {
        Format::One => one_entry(alloc, body),
        Format::Two => read_group(alloc, body),
    }
}

/// The state after entries, where each follows.
fn follow_all<T: Tree>(
    alloc: Global,
    state: Snapshot<T>,
    entries: Entries,
) -> Result<Option<Snapshot<T>>, NoMemory>
    requires { all_written (map logged entries) ≡ true }
    ensures { IfOk result (λ r. option_map (λ s. state_of s.count s.sessions (T.nodes s.tree)) r
        ≡ followed (state_of state.count state.sessions (T.nodes state.tree)) (map logged entries)) }
{
    let mut state = state;
    for entry in entries.into_vec() {
        let Some(next) = follow(alloc, state, entry)? else {
            return Ok(None);
        };
        state = next;
    }
    Ok(Some(state))
}

/// The state after a body.
fn take<T: Tree>(
    alloc: Global,
    f: Format,
    state: Snapshot<T>,
    body: &[u8],
) -> Result<Option<Snapshot<T>>, NoMemory>
    ensures taken { IfOk result (λ r. option_map (λ s. state_of s.count s.sessions (T.nodes s.tree)) r
        ≡ taken f (state_of state.count state.sessions (T.nodes state.tree)) body.now) }
    ensures valid { IsValidState (state_of state.count state.sessions (T.nodes state.tree))
        → IfOk result (λ r. IfSome r (λ s. IsValidState (state_of s.count s.sessions (T.nodes s.tree)))) }
{
    valid_after();
    let Some(entries) = entries_of(alloc, f, body)? else {
        return Ok(None);
    };
    follow_all(alloc, state, entries)
}

/// The offset behind a record with that body.
fn behind(at: u64, body: &[u8]) -> Result<u64, NoMemory>
    ensures { IfOk result (λ n. (n ≡ at + (5 + length body.now)) × (n < 2 ^ 62)) }
{
    let size = body.len() as u64;
    if at >= 1 << 60 || size >= 1 << 60 {
        return Err(NoMemory);
    }
    Ok(at + (5 + size))
}

/// The state after the bodies, which stand in this file from this offset on.
fn replay<T: Tree>(
    alloc: Global,
    f: Format,
    file: u32,
    start: u64,
    state: Snapshot<T>,
    bodies: &[Bytes],
    broken: Option<u64>,
) -> Result<Snapshot<T>, JournalFault>
    requires small { start < 2 ^ 62 }
    requires valid { IsValidState (state_of state.count state.sessions (T.nodes state.tree)) }
    ensures state { IfOk result (λ s.
        replayed file f start (state_of state.count state.sessions (T.nodes state.tree)) bodies.now broken
        ≡ Files.Room (state_of s.count s.sessions (T.nodes s.tree))) }
    ensures valid { IfOk result (λ s. IsValidState (state_of s.count s.sessions (T.nodes s.tree))) }
    ensures small { IfOk result (λ s. start + size_of bodies.now < 2 ^ 62) }
    ensures fault { IfErr result (λ e. IsFault
        (replayed file f start (state_of state.count state.sessions (T.nodes state.tree)) bodies.now broken) e) }
{
    let mut state = state;
    let mut at = start;
    for body in bodies {
        let Some(next) = take(alloc, f, state, body.as_slice())? else {
            return Err(JournalFault::Damaged(file, at));
        };
        state = next;
        at = behind(at, body.as_slice())?;
    }
    match broken {
        Some(place) => Err(JournalFault::Damaged(file, place)),
        None => Ok(state),
    }
}

/// The state that a file holds, and that its last gate is within the bound of a file.
pub fn open<T: Tree>(
    alloc: Global,
    f: Format,
    file: u32,
    empty: T,
    snapshot: &[u8],
    bodies: &[Bytes],
    broken: Option<u64>,
) -> Result<Snapshot<T>, JournalFault>
    requires { T.nodes empty ≡ empty_tree }
    ensures state { IfOk result (λ s. opened file f (held_of snapshot.now bodies.now broken)
        ≡ Files.Room (state_of s.count s.sessions (T.nodes s.tree))) }
    ensures valid { IfOk result (λ s. IsValidState (state_of s.count s.sessions (T.nodes s.tree))) }
    ensures small { IfOk result (λ s. end_of snapshot.now bodies.now < 2 ^ 62) }
    ensures fault { IfErr result (λ e. IsFault (opened file f (held_of snapshot.now bodies.now broken)) e) }
{
    let size = snapshot.len() as u64;
    if size >= 1 << 60 {
        return Err(JournalFault::Memory);
    }
    let Some(state) = read_snapshot(alloc, empty, snapshot, f)? else {
        return Err(JournalFault::Damaged(file, 0));
    };
    replay(alloc, f, file, 25 + size, state, bodies, broken)
}
