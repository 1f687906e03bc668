//! Numbers, texts and ids at the front of bytes.
ghost use Rattle.std.specs.Prelude.{◌≡◌, option_map};
ghost use Rattle.room_bytes.specs.Reading.{Gives, u32_at, u64_at, byte_at, string_at, text_at};
ghost use Rattle.room_bytes.specs.Reading.{made_at, id_at, replaced_at, behind};

use crate::misread::Misread;
use room_ids::{NodeId, Stamp};
use room_json::{Text, TextFault};
use std::alloc::Global;

/// The number in four bytes at the front, and the bytes behind it.
#[tactic(auto, unfolding(crate::specs::Reading::u32_at))]
pub fn u32_of(bytes: &[u8]) -> Result<(u32, &[u8]), Misread>
    ensures { Gives (λ x. (x.0, x.1.now)) result (u32_at bytes.now) }
{
    if bytes.len() < 4 {
        return Err(Misread::NoValue);
    }
    let (front, rest) = bytes.split_at(4);
    let number = u32::from_be_bytes([front[0], front[1], front[2], front[3]]);
    Ok((number, rest))
}

/// The number in eight bytes at the front.
#[tactic(auto, unfolding(crate::specs::Reading::u64_at))]
pub fn u64_of(bytes: &[u8]) -> Result<(u64, &[u8]), Misread>
    ensures { Gives (λ x. (x.0, x.1.now)) result (u64_at bytes.now) }
{
    if bytes.len() < 8 {
        return Err(Misread::NoValue);
    }
    let (front, rest) = bytes.split_at(8);
    let number = u64::from_be_bytes([
        front[0], front[1], front[2], front[3], front[4], front[5], front[6], front[7],
    ]);
    Ok((number, rest))
}

/// The first byte.
#[tactic(auto, unfolding(crate::specs::Reading::byte_at))]
pub fn byte_of(bytes: &[u8]) -> Result<(u8, &[u8]), Misread>
    ensures { Gives (λ x. (x.0, x.1.now)) result (byte_at bytes.now) }
{
    match bytes {
        [] => Err(Misread::NoValue),
        [byte, rest @ ..] => Ok((*byte, rest)),
    }
}

#[tactic(auto, unfolding(crate::specs::Reading::string_at))]
pub(crate) fn string_of(bytes: &[u8]) -> Result<(&[u8], &[u8]), Misread>
    ensures { Gives (λ x. (x.0.now, x.1.now)) result (string_at bytes.now) }
{
    let (len, rest) = u32_of(bytes)?;
    let len = len as usize;
    if rest.len() < len {
        return Err(Misread::NoValue);
    }
    let (string, rest) = rest.split_at(len);
    Ok((string, rest))
}

/// The text at the front, behind its length.
#[tactic(auto, using(crate::proofs::Texts::texts), unfolding(crate::specs::Reading::text_at))]
pub fn text_of(alloc: Global, bytes: &[u8]) -> Result<(Text, &[u8]), Misread>
    ensures { Gives (λ x. (x.0, x.1.now)) result (text_at bytes.now) }
{
    let (string, rest) = string_of(bytes)?;
    match Text::from_bytes(alloc, string) {
        Ok(text) => Ok((text, rest)),
        Err(TextFault::Memory) => Err(Misread::Memory),
        Err(TextFault::NotUtf8) => Err(Misread::NoValue),
    }
}

#[tactic(auto, unfolding(crate::specs::Reading::made_at))]
fn made_of(bytes: &[u8]) -> Result<(NodeId, &[u8]), Misread>
    ensures { Gives (λ x. (x.0, x.1.now)) result (made_at bytes.now) }
{
    let (actor, rest) = u32_of(bytes)?;
    let (clock, rest) = u64_of(rest)?;
    match Stamp::new(actor, clock) {
        Some(stamp) => Ok((NodeId::Made(stamp), rest)),
        None => Err(Misread::NoValue),
    }
}

/// The id at the front.
#[tactic(auto, unfolding(crate::specs::Reading::id_at))]
pub fn id_of(bytes: &[u8]) -> Result<(NodeId, &[u8]), Misread>
    ensures { Gives (λ x. (x.0, x.1.now)) result (id_at bytes.now) }
{
    let (tag, rest) = byte_of(bytes)?;
    match tag {
        0 => Ok((NodeId::Root, rest)),
        1 => made_of(rest),
        _ => Err(Misread::NoValue),
    }
}

#[tactic(auto, unfolding(crate::specs::Reading::replaced_at))]
pub(crate) fn replaced_of(bytes: &[u8]) -> Result<(Option<NodeId>, &[u8]), Misread>
    ensures { Gives (λ x. (x.0, x.1.now)) result (replaced_at bytes.now) }
{
    let (tag, rest) = byte_of(bytes)?;
    match tag {
        0 => Ok((None, rest)),
        1 => {
            let (id, rest) = match id_of(rest) {
                Ok(found) => found,
                Err(fault) => return Err(fault),
            };
            Ok((Some(id), rest))
        }
        _ => Err(Misread::NoValue),
    }
}

/// What is left behind these bytes, where they stand in front.
#[tactic(auto, unfolding(crate::specs::Reading::behind))]
pub fn behind<'a>(bytes: &'a [u8], front: &[u8]) -> Option<&'a [u8]>
    ensures { option_map (λ x. x.now) result ≡ behind front.now bytes.now }
{
    bytes.strip_prefix(front)
}
