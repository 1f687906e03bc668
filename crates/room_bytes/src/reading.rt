//! Reading entries and groups.
ghost use Rattle.std.specs.Prelude.{◌≡◌, length, map, option_map, IfOk, IfSome, Some};
ghost use Rattle.room_bytes.specs.Bounds.{HasBytes, HaveBytes, IsGroup, logged};
ghost use Rattle.room_bytes.specs.Spelling.{entry_bytes, group_bytes};
ghost use Rattle.room_bytes.specs.Reading.{Gives, name_at, join_at, updated_at, parts_at, entry_at, each_at};
ghost use Rattle.room_bytes.specs.Reading.{entry_of, group_of};
ghost use Rattle.room_bytes.specs.declared.entries.Format.TheVariants.{Two};

use crate::entries::{Entries, Entry, Format};
use crate::fields::each_body;
use crate::misread::Misread;
use crate::numbers::{behind, byte_of, text_of, u32_of, u64_of};
use crate::shallow::is_written;
use crate::writing::put_entry;
use room_json::{NoMemory, Sound, Text};
use std::alloc::Global;

/// The name at the front; the first format has none.
#[tactic(auto, unfolding(crate::specs::Reading::name_at))]
pub fn name_of(alloc: Global, f: Format, bytes: &[u8]) -> Result<(Text, &[u8]), Misread>
    ensures { Gives (λ x. (x.0, x.1.now)) result (name_at f bytes.now) }
{
    match f {
        Format::One => Ok((Text::new(alloc), bytes)),
        Format::Two => text_of(alloc, bytes),
    }
}

#[tactic(auto, unfolding(crate::specs::Reading::join_at))]
fn join_of(alloc: Global, f: Format, bytes: &[u8]) -> Result<(Entry, &[u8]), Misread>
    ensures { Gives (λ x. (logged x.0, x.1.now)) result (join_at f bytes.now) }
{
    let (actor, rest) = u32_of(bytes)?;
    let (key, rest) = u64_of(rest)?;
    let (name, rest) = name_of(alloc, f, rest)?;
    Ok((Entry::Join { actor, key, name }, rest))
}

#[tactic(auto, unfolding(crate::specs::Reading::updated_at))]
fn updated_of(alloc: Global, bytes: &[u8]) -> Result<(Entry, &[u8]), Misread>
    ensures { Gives (λ x. (logged x.0, x.1.now)) result (updated_at bytes.now) }
{
    let (actor, rest) = u32_of(bytes)?;
    let (first, rest) = u64_of(rest)?;
    let (count, rest) = u32_of(rest)?;
    let (bodies, rest) = each_body(alloc, count, rest)?;
    Ok((
        Entry::Update {
            actor,
            first,
            bodies,
        },
        rest,
    ))
}

#[tactic(auto, unfolding(crate::specs::Reading::parts_at))]
fn parts_of(alloc: Global, f: Format, bytes: &[u8]) -> Result<(Entry, &[u8]), Misread>
    ensures { Gives (λ x. (logged x.0, x.1.now)) result (parts_at f bytes.now) }
{
    let (code, rest) = byte_of(bytes)?;
    match code {
        1 => join_of(alloc, f, rest),
        2 => updated_of(alloc, rest),
        _ => Err(Misread::NoValue),
    }
}

/// The entry at the front that is written as these bytes.
#[tactic(auto, unfolding(crate::specs::Reading::entry_at))]
fn entry_part(alloc: Global, f: Format, bytes: &[u8]) -> Result<(Entry, &[u8]), Misread>
    ensures value { Gives (λ x. (logged x.0, x.1.now)) result (entry_at f bytes.now) }
    ensures bounds { IfOk result (λ x. HasBytes f (logged x.0)) }
{
    let (entry, _) = parts_of(alloc, f, bytes)?;
    let mut written = Vec::new(alloc);
    put_entry(alloc, &mut written, f, &entry)?;
    let Some(rest) = behind(bytes, written.as_slice()) else {
        return Err(Misread::NoValue);
    };
    if !is_written(f, &entry) {
        return Err(Misread::NoValue);
    }
    entry.sound();
    Ok((entry, rest))
}

#[tactic(auto, unfolding(crate::specs::Reading::entry_of))]
fn whole_entry(alloc: Global, f: Format, bytes: &[u8]) -> Result<Entry, Misread>
    ensures value { Gives logged result (entry_of f bytes.now) }
    ensures bounds { IfOk result (λ e. HasBytes f (logged e)) }
{
    let (entry, rest) = entry_part(alloc, f, bytes)?;
    if !rest.is_empty() {
        return Err(Misread::NoValue);
    }
    Ok(entry)
}

/// The entry whose bytes these are in that format; None exactly where there is none.
pub fn read_entry(alloc: Global, b: &[u8], f: Format) -> Result<Option<Entry>, NoMemory>
    ensures found { IfOk result (λ r. IfSome r (λ e. HasBytes f (logged e) × (b.now ≡ entry_bytes f (logged e)))) }
    ensures value { IfOk result (λ r. option_map logged r ≡ entry_of f b.now) }
{
    match whole_entry(alloc, f, b) {
        Ok(entry) => Ok(Some(entry)),
        Err(Misread::NoValue) => Ok(None),
        Err(Misread::Memory) => Err(NoMemory),
    }
}

fn each_entry(alloc: Global, count: u32, bytes: &[u8]) -> Result<(Entries, &[u8]), Misread>
    ensures value { Gives (λ x. (map logged x.0, x.1.now)) result (each_at (entry_at Two) count bytes.now) }
    ensures bounds { IfOk result (λ x. HaveBytes (map logged x.0)) }
    ensures number { IfOk result (λ x. length x.0 ≡ count) }
{
    let mut entries = Entries::new(alloc);
    let mut rest = bytes;
    for _ in 0..count {
        let (entry, after) = entry_part(alloc, Format::Two, rest)?;
        entries.push(entry)?;
        rest = after;
    }
    Ok((entries, rest))
}

#[tactic(auto, unfolding(crate::specs::Reading::group_of))]
fn whole_group(alloc: Global, bytes: &[u8]) -> Result<Entries, Misread>
    ensures value { Gives (map logged) result (group_of bytes.now) }
    ensures bounds { IfOk result (λ es. IsGroup (map logged es)) }
{
    let (count, rest) = u32_of(bytes)?;
    let (entries, rest) = each_entry(alloc, count, rest)?;
    if count == 0 || !rest.is_empty() {
        return Err(Misread::NoValue);
    }
    Ok(entries)
}

/// The entries of the group whose bytes these are; None exactly where there is none.
pub fn read_group(alloc: Global, b: &[u8]) -> Result<Option<Entries>, NoMemory>
    ensures found { IfOk result
        (λ r. IfSome r (λ es. IsGroup (map logged es) × (b.now ≡ group_bytes (map logged es)))) }
    ensures value { IfOk result (λ r. option_map (map logged) r ≡ group_of b.now) }
{
    match whole_group(alloc, b) {
        Ok(entries) => Ok(Some(entries)),
        Err(Misread::NoValue) => Ok(None),
        Err(Misread::Memory) => Err(NoMemory),
    }
}
