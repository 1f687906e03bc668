//! The texts of ids.
ghost use Rattle.std.specs.Prelude.{◌≡◌, IfOk, Some, option_map};
ghost use Rattle.room_ids.specs.Ids.{parts_of, stamp_of_parts, stamp_in, stamp_text, op_id_in, node_in, node_text};

use crate::ids::{MAX_ACTOR, NodeId, OpId, Stamp};
use crate::numerals::{push_number, read_number};
use room_json::{MAX_WHOLE, NoMemory, Text};
use std::alloc::Global;

/// What stands before the first colon, and what behind it.
fn parts(t: &[u8]) -> Option<(&[u8], &[u8])>
    ensures { option_map (λ p. (p.0.now, p.1.now)) result ≡ parts_of t.now }
{
    for at in 0..t.len() {
        if t[at] == b':' {
            return Some((&t[..at], &t[at + 1..]));
        }
    }
    None
}

/// The stamp of two numbers.
fn stamp_of(actor: &[u8], clock: &[u8]) -> Option<Stamp>
    ensures { result ≡ stamp_of_parts (actor.now, clock.now) }
{
    let actor = u32::try_from(read_number(actor, u64::from(MAX_ACTOR))?).ok()?;
    let clock = read_number(clock, MAX_WHOLE)?;
    Stamp::new(actor, clock)
}

#[tactic(auto, unfolding(crate::specs::Ids::stamp_in))]
fn read_stamp(t: &[u8]) -> Option<Stamp>
    ensures { result ≡ stamp_in t.now }
{
    let (actor, clock) = parts(t)?;
    stamp_of(actor, clock)
}

fn write_stamp(alloc: Global, stamp: &Stamp) -> Result<Text, NoMemory>
    ensures text { IfOk result (λ t. t ≡ stamp_text stamp.now) }
    ensures again { stamp_in (stamp_text stamp.now) ≡ Some stamp.now }
{
    let actor = stamp.actor();
    let clock = stamp.clock();
    write_parts(alloc, u64::from(actor), clock)
}

#[tactic(auto, unfolding(crate::specs::Ids::stamp_text))]
fn write_parts(alloc: Global, actor: u64, clock: u64) -> Result<Text, NoMemory>
    ensures { IfOk result (λ t. t ≡ stamp_text (record { actor = actor; clock = clock })) }
{
    let mut text = Text::new(alloc);
    push_number(alloc, &mut text, actor)?;
    text.push_str(":")?;
    push_number(alloc, &mut text, clock)?;
    Ok(text)
}

impl NodeId {
    /// The node id that a text spells: `root`, or `actor:clock`.
    #[tactic(auto, unfolding(crate::specs::Ids::node_in))]
    pub fn read(t: &[u8]) -> Option<NodeId>
        ensures { result ≡ node_in t.now }
    {
        if t == b"root".as_slice() {
            return Some(NodeId::Root);
        }
        let stamp = read_stamp(t)?;
        Some(NodeId::Made(stamp))
    }

    /// The text that spells the id.
    #[tactic(auto, using(crate::proofs::Spelled::nodes_again), unfolding(crate::specs::Ids::node_text))]
    pub fn text(&self, alloc: Global) -> Result<Text, NoMemory>
        ensures text { IfOk result (λ t. t ≡ node_text self.now) }
        ensures again { node_in (node_text self.now) ≡ Some self.now }
    {
        match self {
            NodeId::Root => Text::from_str(alloc, "root"),
            NodeId::Made(stamp) => write_stamp(alloc, stamp),
        }
    }
}

impl OpId {
    /// The operation id that a text spells: `actor:clock`.
    pub fn read(t: &[u8]) -> Option<OpId>
        ensures { result ≡ op_id_in t.now }
    {
        let stamp = read_stamp(t)?;
        Some(OpId(stamp))
    }

    /// The text that spells the id.
    pub fn text(&self, alloc: Global) -> Result<Text, NoMemory>
        ensures text { IfOk result (λ t. t ≡ stamp_text self.now.0) }
        ensures again { stamp_in (stamp_text self.now.0) ≡ Some self.now.0 }
    {
        write_stamp(alloc, &self.0)
    }
}
