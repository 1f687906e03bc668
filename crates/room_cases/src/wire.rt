//! Cases of `room_wire` and `room_nodes`: operations as JSON.
use room_case_text::{Broken, shown, value};
use room_json::{Copied, Json, NoMemory, Sound};
use room_nodes::Op;
use room_wire::{WireFault, read_op, write_op};
use std::alloc::Global;

/// A copy of what is sound.
fn copied<T: Copied + Sound>(alloc: Global, value: &T) -> Result<T, NoMemory> {
    value.sound();
    value.copy(alloc)
}

/// What comes of a case of operations.
pub(crate) fn outcome(alloc: Global, verb: &str, rest: &str) -> Result<String, Broken> {
    match verb {
        "read" => again(alloc, rest),
        _ => Err(Broken::Verb),
    }
}

/// The compact text of an operation, by way of a copy.
fn written(alloc: Global, op: &Op) -> Result<String, Broken> {
    let copy = copied(alloc, op)?;
    shown(alloc, &write_op(alloc, &copy)?)
}

fn refused(alloc: Global, fault: WireFault) -> Result<String, Broken> {
    match fault {
        WireFault::Memory => Err(Broken::Memory),
        _ => Ok(format!(in alloc; "{fault}")?),
    }
}

/// What is written of the operation that is read of a text, or why none is read.
fn again(alloc: Global, text: &str) -> Result<String, Broken> {
    let json = value(alloc, text)?;
    match read_op(alloc, &json) {
        Ok(op) => written(alloc, &op),
        Err(fault) => refused(alloc, fault),
    }
}
