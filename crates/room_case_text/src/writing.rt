//! Values and operations, written and read as JSON.
use crate::missing::Broken;
use room_json::{Copied, Json, write};
use room_nodes::Op;
use room_wire::{WireFault, read_op};
use std::alloc::Global;

/// The compact text of a value, by way of a copy.
pub fn shown(alloc: Global, v: &Json) -> Result<String, Broken> {
    let text = write(alloc, &v.copy(alloc)?)?;
    Ok(format!(in alloc; "{}", text.as_str())?)
}

/// The operation that a value spells.
pub fn op_of(alloc: Global, v: &Json) -> Result<Op, Broken> {
    match read_op(alloc, v) {
        Ok(op) => Ok(op),
        Err(WireFault::Memory) => Err(Broken::Memory),
        Err(WireFault::BadOp(_)) => Err(Broken::Op),
    }
}
