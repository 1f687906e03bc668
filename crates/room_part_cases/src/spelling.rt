//! Values, operations and trees, read and written as JSON.
use crate::broken::Broken;
use room_items::write_items;
use room_json::{Items, Json, Text, write};
use room_nodes::Op;
use room_tree::Tree;
use room_wire::{read_op, write_op};
use std::alloc::Global;

/// The compact text of a value.
pub(crate) fn shown(alloc: Global, v: &Json) -> Result<String, Broken> {
    let text = write(alloc, v)?;
    Ok(format!(in alloc; "{}", text.as_str())?)
}

/// The operation that a value spells.
pub(crate) fn op_of(alloc: Global, v: &Json) -> Result<Op, Broken> {
    Ok(read_op(alloc, v)?)
}

/// Operations as one list.
pub(crate) fn ops_shown(alloc: Global, ops: &[Op]) -> Result<String, Broken> {
    let mut all = Items::new(alloc);
    for op in ops {
        all.push(write_op(alloc, op)?)?;
    }
    shown(alloc, &Json::List(all))
}

/// The items of a tree as one text.
pub(crate) fn items_text<T: Tree>(alloc: Global, t: &T) -> Result<Text, Broken> {
    Ok(write(alloc, &Json::List(write_items(alloc, t)?))?)
}
