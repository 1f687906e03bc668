//! How many calls of the tree it takes to read, write, show and step a large one.
use crate::counted::Counted;
use room_apply::{back, step};
use room_case_text::{Broken, items, node, value};
use room_ids::{OpId, Stamp, push_number};
use room_items::{read_items, view, write_items};
use room_json::{Json, Text, write};
use room_nodes::{Body, Op};
use room_tree::{PlainTree, Tree};
use std::alloc::Global;

/// The items of a root and the list 1:1 of so many registers.
fn long_list(alloc: Global, count: u64) -> Result<Text, Broken> {
    let mut text = Text::from_str(
        alloc,
        r#"[["root",{"data":{},"type":0}],["1:1",{"parentId":"root","parentKey":"l","type":1}]"#,
    )?;
    for i in 0..count {
        text.push_str(r#",["2:"#)?;
        push_number(alloc, &mut text, i)?;
        text.push_str(r#"",{"data":7,"parentId":"1:1","parentKey":""#)?;
        push_number(alloc, &mut text, i.saturating_add(1000000))?;
        text.push_str(r#"","type":3}]"#)?;
    }
    text.push_str("]")?;
    Ok(text)
}

fn deletion() -> Result<Op, Broken> {
    let Some(stamp) = Stamp::new(9, 1) else {
        return Err(Broken::Number);
    };
    let body = Body::Delete { node: node("1:1")? };
    Ok(Op {
        id: OpId(stamp),
        body,
    })
}

/// Whether what was done since it was asked last took at most so many calls.
fn within<T: Tree>(t: &Counted<T>, most: u64) -> bool {
    t.take_calls() <= most
}

/// Whether the list's deletion and the way back take few calls together.
fn steps<T: Tree>(alloc: Global, t: &mut Counted<T>, most: u64) -> Result<bool, Broken> {
    let mut edits = step(alloc, t, &deletion()?)?;
    back(t, &mut edits);
    Ok(within(t, most))
}

/// The tree of that text, on which reading it took at most so many calls.
fn read_within<T: Tree>(alloc: Global, text: &Text, most: u64) -> Result<Counted<T>, Broken> {
    let json = value(alloc, text.as_str())?;
    let into: Counted<T> = Counted::empty(alloc)?;
    match read_items(alloc, into, items(&json)?)? {
        Some(t) if within(&t, most) => Ok(t),
        _ => Err(Broken::Tree),
    }
}

/// Whether that text is written of the tree, in at most so many calls.
fn writes<T: Tree>(alloc: Global, t: &Counted<T>, text: &Text, most: u64) -> Result<bool, Broken> {
    let written = write(alloc, &Json::List(write_items(alloc, t)?))?;
    Ok(written.as_str() == text.as_str() && within(t, most))
}

/// Whether a list of so many registers is read, written and shown in 8 calls a node each, and its deletion made and
/// taken back in 20.
pub(crate) fn wide(alloc: Global, count: u64) -> Result<String, Broken> {
    let nodes = count.saturating_add(2);
    let most = nodes.saturating_mul(8);
    let text = long_list(alloc, count)?;
    let mut t: Counted<PlainTree> = read_within(alloc, &text, most)?;
    let written = writes(alloc, &t, &text, most)?;
    drop(view(alloc, &t)?);
    let shown = within(&t, most);
    let stepped = steps(alloc, &mut t, nodes.saturating_mul(20))?;
    let count = t.count();
    Ok(format!(in alloc; "{count} nodes read, {written} {shown} {stepped}")?)
}
