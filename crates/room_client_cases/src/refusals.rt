//! What a refused call answers.
use crate::broken::Broken;
use room_client::{BatchFault, FrameFault, SayFault, UndoFault};
use room_ids::NodeId;
use room_props::EditFault;
use std::alloc::Global;

fn at_node(alloc: Global, fault: &EditFault, node: &NodeId) -> Result<String, Broken> {
    let id = node.text(alloc)?;
    Ok(format!(in alloc; "refused at {}: {fault}", id.as_str())?)
}

/// Of an edit.
pub(crate) fn of_edit(alloc: Global, fault: &EditFault) -> Result<String, Broken> {
    match fault {
        EditFault::Memory => Err(Broken::Memory),
        EditFault::NoNode(node) => at_node(alloc, fault, node),
        EditFault::WrongKind(node) => at_node(alloc, fault, node),
        _ => Ok(format!(in alloc; "refused: {fault}")?),
    }
}

/// Of the begin or the end of a batch.
pub(crate) fn of_batch(alloc: Global, fault: BatchFault) -> Result<String, Broken> {
    match fault {
        BatchFault::Memory => Err(Broken::Memory),
        _ => Ok(format!(in alloc; "refused: {fault}")?),
    }
}

/// Of an undo or a redo.
pub(crate) fn of_undo(alloc: Global, fault: UndoFault) -> Result<String, Broken> {
    match fault {
        UndoFault::Memory => Err(Broken::Memory),
        _ => Ok(format!(in alloc; "refused: {fault}")?),
    }
}

/// Of a presence or an event.
pub(crate) fn of_saying(alloc: Global, fault: SayFault) -> Result<String, Broken> {
    match fault {
        SayFault::Memory => Err(Broken::Memory),
        _ => Ok(format!(in alloc; "refused: {fault}")?),
    }
}

/// Of a frame.
pub(crate) fn of_frame(alloc: Global, fault: &FrameFault) -> Result<String, Broken> {
    match fault {
        FrameFault::Memory => Err(Broken::Memory),
        FrameFault::BadServerFrame(reason) => Ok(format!(in alloc; "refused: {fault}, {reason}")?),
        _ => Ok(format!(in alloc; "refused: {fault}")?),
    }
}
