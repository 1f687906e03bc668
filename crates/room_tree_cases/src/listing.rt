//! A tree in short: `root@{"f":1} 1:1@l[] 1:4@m<> 1:2@!=1`.
use room_case_text::{Broken, item, shown, text_at};
use room_items::write_items;
use room_json::{Json, field};
use room_tree::Tree;
use std::alloc::Global;

/// The nodes as their items have them: an id, `@`, a key, and `[]` of a list, `<>` of a map, an object's fields, or `=`
/// and a register's value.
pub(crate) fn listing<T: Tree>(alloc: Global, t: &T) -> Result<String, Broken> {
    let mut text = String::new(alloc);
    for item in write_items(alloc, t)?.as_slice() {
        push_node(alloc, &mut text, item)?;
    }
    Ok(text)
}

fn push_node(alloc: Global, text: &mut String, node: &Json) -> Result<(), Broken> {
    if !text.is_empty() {
        text.push_str(" ")?;
    }
    text.push_str(text_at(node, 0)?.as_str())?;
    text.push_str("@")?;
    let fields = item(node, 1)?;
    if let Some(key) = field(fields, "parentKey").and_then(|v| v.as_text()) {
        text.push_str(key.as_str())?;
    }
    push_kind(alloc, text, fields)
}

fn push_kind(alloc: Global, text: &mut String, fields: &Json) -> Result<(), Broken> {
    match field(fields, "type").and_then(|v| v.as_int()) {
        Some(1) => text.push_str("[]")?,
        Some(2) => text.push_str("<>")?,
        Some(3) => text.push_str("=")?,
        _ => {},
    }
    if let Some(data) = field(fields, "data") {
        text.push_str(shown(alloc, data)?.as_str())?;
    }
    Ok(())
}
