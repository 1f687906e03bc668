//! A source in memory.
ghost use Rattle.std.specs.Prelude.{◌≡◌, ◌<◌, Some, length, true, false, OnOk, OnErr};
ghost use Rattle.std.specs.Io.{ReadsAtMost};
ghost use Rattle.std.specs.Io.KnownBytes.{ReadConsumes};
ghost use Rattle.room_edge.specs.Causes.{HasCause};
ghost use Rattle.room_edge.specs.Memory.{no_calls, is_to_fail, after_read};

use crate::calls::Calls;
use crate::edge::{Failed, Source};
use room_json::Bytes;
use std::marker::Model;

/// A source over bytes in memory, some of whose calls fail.
#[derive(Drop)]
pub struct MemSource {
    bytes: Bytes,
    at: usize,
    calls: Calls,
}

impl Model for MemSource {
    ghost use Rattle.std.specs.Prelude.{drop};
    ghost use Rattle.room_edge.specs.Memory.{Reading};

    ghost Value = { Reading };

    ghost view = { λ s. record { left = drop s.at s.bytes; calls = s.calls } };
}

impl MemSource {
    /// A source over these bytes; a number k in `fails` lets the k-th call fail, counted from 1.
    pub fn new(bytes: Bytes, fails: Vec<u64>) -> MemSource
        ensures { result ≡ record { left = bytes; calls = no_calls fails.items } }
    {
        MemSource {
            bytes,
            at: 0,
            calls: Calls::new(fails),
        }
    }
}

impl Source for MemSource {
    ghost left = { λ s. Some s.left };

    ghost faults = { λ s. s.calls.faults };

    fn read(&mut self, into: &mut [u8]) -> Result<usize, Failed>
        requires { 0 < length into.old }
        ensures bound { ReadsAtMost result into.new }
        ensures bytes { ReadConsumes (Some self.old.left) (Some self.new.left) result into.new }
        ensures cause { HasCause self.old.calls.faults self.new.calls.faults result }
        ensures new { self.new ≡ after_read self.old (length into.old) }
        ensures ok { OnOk result (is_to_fail self.old.calls ≡ false) }
        ensures err { OnErr result (is_to_fail self.old.calls ≡ true) }
    {
        if self.calls.begin() {
            return Err(Failed);
        }
        let taken = take_from(self.bytes.as_slice(), self.at, into);
        self.at += taken;
        Ok(taken)
    }
}

ghost use Rattle.std.specs.Prelude.{◌≤◌, ◌-◌, ◌+◌, ◌++◌, [], take, drop, min};

/// Copies what fits, and answers how many bytes.
fn copy_from(bytes: &[u8], at: usize, into: &mut [u8]) -> usize
    ensures fits { result ≤ length into.new }
    ensures within { result ≤ length bytes.now - at }
    ensures bytes { take result into.new ≡ take result (drop at bytes.now) }
    ensures some { result ≡ min (length bytes.now - at) (length into.old) }
    ensures room { length into.new ≡ length into.old }
{
    if at >= bytes.len() {
        return 0;
    }
    let count = (bytes.len() - at).min(into.len());
    into[..count].copy_from_slice(&bytes[at..at + count]);
    count
}

/// Takes what fits from the bytes that are left behind `at`.
pub(crate) fn take_from(bytes: &[u8], at: usize, into: &mut [u8]) -> usize
    ensures fits { result ≤ length into.new }
    ensures within { result ≤ length bytes.now - at }
    ensures parts { drop at bytes.now ≡ take result into.new ++ drop (at + result) bytes.now }
    ensures end { result ≡ 0 → 0 < length into.new → drop (at + result) bytes.now ≡ [] }
    ensures rest { drop (at + result) bytes.now ≡ drop (length into.old) (drop at bytes.now) }
{
    copy_from(bytes, at, into)
}
