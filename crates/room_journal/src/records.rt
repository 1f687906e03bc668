//! The records of a file are read, up to the first gate that is closed.
ghost use Rattle.std.specs.Prelude.{◌≡◌, ◌≤◌, ◌+◌, ℕ, length, drop, IfOk, IfSome, IsNone, if◌then◌else◌};
ghost use Rattle.room_journal.specs.Records.{records, ended, breaks, is_closed};
ghost use Rattle.room_journal.specs.Found.{HasRecords, IsRecordAt, IsRecordIn};

use room_json::{Bytes, NoMemory, Seq};
use std::alloc::Global;

/// The bodies of the whole records in order, the offset behind them, and whether there is no closed gate.
#[derive(Drop)]
pub struct Recs {
    pub bodies: Seq<Bytes>,
    pub end: u64,
    pub broken: bool,
}

/// The size of the body where a whole record with an open gate stands.
fn record_at(bytes: &[u8], at: usize) -> Option<usize>
    requires { at ≤ length bytes.now }
    ensures some { IfSome result (λ n. IsRecordAt bytes.now at n) }
    ensures none { IsNone result → (k : ℕ)
        → records k 0 (drop at bytes.now) ≡ (if is_closed (drop at bytes.now) then ended else breaks k) }
{
    record_in(&bytes[at..])
}

fn record_in(rest: &[u8]) -> Option<usize>
    ensures some { IfSome result (λ n. IsRecordIn rest.now n) }
    ensures none { IsNone result → (k : ℕ)
        → records k 0 rest.now ≡ (if is_closed rest.now then ended else breaks k) }
{
    let [gate, a, b, c, d, after @ ..] = rest else {
        return None;
    };
    let size = u32::from_be_bytes([*a, *b, *c, *d]) as usize;
    if *gate == 0 || size > after.len() {
        return None;
    }
    Some(size)
}

fn is_closed_at(bytes: &[u8], at: usize) -> bool
    requires { at ≤ length bytes.now }
    ensures { result ≡ is_closed (drop at bytes.now) }
{
    match &bytes[at..] {
        [gate, ..] => *gate == 0,
        _ => false,
    }
}

/// Copies these bytes.
pub fn piece(alloc: Global, bytes: &[u8]) -> Result<Bytes, NoMemory>
    ensures { IfOk result (λ b. b ≡ bytes.now) }
{
    Ok(Bytes::from_vec(bytes.to_vec(alloc)?))
}

/// The records from this offset on.
pub fn read_records(alloc: Global, bytes: &[u8], start: usize) -> Result<Recs, NoMemory>
    requires { start ≤ length bytes.now }
    ensures { IfOk result (λ r. HasRecords (records start 0 (drop start bytes.now)) start r) }
{
    let mut bodies = Seq::new(alloc);
    let mut at = start;
    while let Some(size) = record_at(bytes, at) {
        bodies.push(piece(alloc, &bytes[at + 5..at + 5 + size])?)?;
        at += 5 + size;
    }
    Ok(Recs {
        bodies,
        end: at as u64,
        broken: !is_closed_at(bytes, at),
    })
}
