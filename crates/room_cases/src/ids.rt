//! Cases of `room_ids`: ids, and positions in lists.
use room_case_text::{Broken, cut, item, node, number, shown, text_at, tildes, value};
use room_ids::{
    MAX_ACTOR, NodeId, OpId, Pos, PosFault, Stamp, after, before, between, compare, compare_ops,
    compare_places, first, same_id, same_op,
};
use room_json::{Copied, Json, Sound, Text};
use std::alloc::Global;
use std::cmp::Ordering;

/// What comes of a case of ids.
pub(crate) fn outcome(alloc: Global, verb: &str, rest: &str) -> Result<String, Broken> {
    match verb {
        "node" => node_again(alloc, rest),
        "op" => op_again(alloc, rest),
        "stamp" => stamped(alloc, rest),
        "nodes" => nodes_ordered(alloc, rest),
        "ops" => ops_ordered(alloc, rest),
        _ => Err(Broken::Verb),
    }
}

/// A text, or `-`.
fn said(alloc: Global, text: Option<Text>) -> Result<String, Broken> {
    match text {
        Some(text) => Ok(format!(in alloc; "{}", text.as_str())?),
        None => Ok(format!(in alloc; "-")?),
    }
}

/// The text of the node that a text spells.
fn node_again(alloc: Global, text: &str) -> Result<String, Broken> {
    let Some(id) = NodeId::read(text.as_bytes()) else {
        return said(alloc, None);
    };
    id.sound();
    said(alloc, Some(id.text(alloc)?))
}

/// The text of the operation that a text spells.
fn op_again(alloc: Global, text: &str) -> Result<String, Broken> {
    let Some(id) = OpId::read(text.as_bytes()) else {
        return said(alloc, None);
    };
    id.sound();
    said(alloc, Some(id.text(alloc)?))
}

/// The id of an actor and a clock, which may be one more than the greatest.
fn stamped(alloc: Global, rest: &str) -> Result<String, Broken> {
    let (actor, clock) = cut(rest);
    let (clock, more) = cut(clock);
    let more = if more.is_empty() { 0 } else { number(more)? };
    let clock = number(clock)?.saturating_add(more);
    let Ok(actor) = u32::try_from(number(actor)?.min(MAX_ACTOR as u64)) else {
        return Err(Broken::Number);
    };
    match Stamp::new(actor, clock) {
        Some(stamp) => said(alloc, Some(OpId(stamp).text(alloc)?)),
        None => said(alloc, None),
    }
}

fn named(order: Ordering) -> &'static str {
    match order {
        Ordering::Less => "less",
        Ordering::Equal => "equal",
        Ordering::Greater => "greater",
    }
}

/// How two nodes are ordered, and whether they are the same.
fn nodes_ordered(alloc: Global, rest: &str) -> Result<String, Broken> {
    let (a, b) = cut(rest);
    let a = node(a)?;
    let b = node(b)?;
    Ok(format!(in alloc; "{} {}", named(compare(&a, &b)), same_id(&a, &b))?)
}

/// How two operations are ordered, and whether they are the same.
fn ops_ordered(alloc: Global, rest: &str) -> Result<String, Broken> {
    let (a, b) = cut(rest);
    match (OpId::read(a.as_bytes()), OpId::read(b.as_bytes())) {
        (Some(a), Some(b)) => {
            let order = named(compare_ops(&a, &b));
            Ok(format!(in alloc; "{order} {}", same_op(&a, &b))?)
        },
        _ => Err(Broken::Op),
    }
}

/// What comes of a case of positions. They stand in JSON, so that blanks are seen.
pub(crate) fn position(alloc: Global, verb: &str, rest: &str) -> Result<String, Broken> {
    match verb {
        "first" => placed(alloc, Ok(first(alloc)?)),
        "tildes" => tildes_read(alloc, number(rest)?),
        _ => position_of(alloc, verb, &value(alloc, rest)?),
    }
}

fn position_of(alloc: Global, verb: &str, v: &Json) -> Result<String, Broken> {
    match verb {
        "read" => place_read(alloc, v),
        "order" => places_ordered(alloc, v),
        "after" => placed(alloc, after(alloc, &place(alloc, v, 0)?)),
        "before" => placed(alloc, before(alloc, &place(alloc, v, 0)?)),
        "between" => placed_between(alloc, v),
        _ => Err(Broken::Verb),
    }
}

/// The position that an item of a list spells.
fn place(alloc: Global, v: &Json, at: u64) -> Result<Pos, Broken> {
    match Pos::read(alloc, text_at(v, at)?)? {
        Some(pos) => Ok(pos),
        None => Err(Broken::Position),
    }
}

/// A position as JSON, or why there is none.
fn placed(alloc: Global, made: Result<Pos, PosFault>) -> Result<String, Broken> {
    match made {
        Ok(pos) => shown(alloc, &Json::Text(pos.copy(alloc)?.text().copy(alloc)?)),
        Err(PosFault::Memory) => Err(Broken::Memory),
        Err(fault) => Ok(format!(in alloc; "{fault}")?),
    }
}

/// Whether a text is a position, as is told of its bytes and as it is read.
fn place_read(alloc: Global, v: &Json) -> Result<String, Broken> {
    let text = text_at(v, 0)?;
    let told = Pos::is_pos(text.as_bytes());
    let read = Pos::read(alloc, text)?.is_some();
    Ok(format!(in alloc; "{told} {read}")?)
}

fn places_ordered(alloc: Global, v: &Json) -> Result<String, Broken> {
    let order = compare_places(&place(alloc, v, 0)?, &place(alloc, v, 1)?);
    Ok(format!(in alloc; "{}", named(order))?)
}

/// What is made between two positions, of which the second may be `null`.
fn placed_between(alloc: Global, v: &Json) -> Result<String, Broken> {
    let x = place(alloc, v, 0)?;
    if item(v, 1)?.as_text().is_none() {
        return placed(alloc, between(alloc, &x, None));
    }
    let y = place(alloc, v, 1)?;
    if compare_places(&x, &y) != Ordering::Less {
        return Err(Broken::Position);
    }
    placed(alloc, between(alloc, &x, Some(&y)))
}

/// Whether so many `~` are a position; and what is wrong with the one after it.
fn tildes_read(alloc: Global, count: u64) -> Result<String, Broken> {
    let text = tildes(alloc, count)?;
    let Some(pos) = Pos::read(alloc, &text)? else {
        return Ok(format!(in alloc; "no position")?);
    };
    match after(alloc, &pos) {
        Ok(next) => Ok(format!(in alloc; "{} bytes, then {}", count, next.text().len())?),
        Err(PosFault::Memory) => Err(Broken::Memory),
        Err(fault) => Ok(format!(in alloc; "{count} bytes, then {fault}")?),
    }
}
