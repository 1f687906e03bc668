//! The lines of refused calls.
ghost use Rattle.std.specs.Prelude.{◌≡◌, IfOk};
ghost use Rattle.room_model.specs.Server.{reason_text as model_text};
ghost use Rattle.room_slots.specs.Refusals.{TellsBatch, TellsEdit, TellsFrame, TellsSaying, TellsUndo};

use room_client::{BatchFault, FrameFault, SayFault, UndoFault};
use room_ids::NodeId;
use room_json::{NoMemory, Text};
use room_msg::Reason;
use room_props::EditFault;
use room_report::{refused, refused_number, refused_numbers, refused_text};
use std::alloc::Global;

/// Of an edit.
pub(crate) fn of_edit(alloc: Global, line: u64, fault: &EditFault) -> Result<Text, NoMemory>
    ensures { IfOk result (TellsEdit line fault.now) }
{
    match fault {
        EditFault::Memory => Err(NoMemory),
        EditFault::NotLoaded => refused(alloc, line, "NotLoaded"),
        EditFault::NoNode(node) => at_node(alloc, line, "NoNode", node),
        EditFault::WrongKind(node) => at_node(alloc, line, "WrongKind", node),
        EditFault::BadIndex(index, count) => {
            refused_numbers(alloc, line, "BadIndex", *index, *count)
        }
        EditFault::ValueTooDeep(depth) => refused_number(alloc, line, "ValueTooDeep", *depth),
        EditFault::NodeTooDeep(depth) => refused_number(alloc, line, "NodeTooDeep", *depth),
        EditFault::PosTooLong(length) => refused_number(alloc, line, "PosTooLong", *length),
        EditFault::ClocksSpent(last) => refused_number(alloc, line, "ClocksSpent", *last),
        EditFault::BatchTooLarge(bytes) => refused_number(alloc, line, "BatchTooLarge", *bytes),
    }
}

ghost use Rattle.std.specs.Prelude.{[], ◌∷◌};
ghost use Rattle.room_ids.specs.Ids.{node_text};
ghost use Rattle.room_model.specs.Lines.{frame_fault_words, refused_line};
ghost use Rattle.room_model.specs.Receive.{BadServerFrame};

fn at_node(alloc: Global, line: u64, name: &str, node: &NodeId) -> Result<Text, NoMemory>
    ensures { IfOk result (λ t. t ≡ refused_line line (name.now ∷ node_text node.now ∷ [])) }
{
    let id = node.text(alloc)?;
    refused_text(alloc, line, name, id.as_str())
}

/// Of the begin or the end of a batch.
pub(crate) fn of_batch(alloc: Global, line: u64, fault: &BatchFault) -> Result<Text, NoMemory>
    ensures { IfOk result (TellsBatch line fault.now) }
{
    match fault {
        BatchFault::Memory => Err(NoMemory),
        BatchFault::InBatch => refused(alloc, line, "InBatch"),
        BatchFault::NoBatch => refused(alloc, line, "NoBatch"),
    }
}

/// Of an undo or a redo.
pub(crate) fn of_undo(alloc: Global, line: u64, fault: &UndoFault) -> Result<Text, NoMemory>
    ensures { IfOk result (TellsUndo line fault.now) }
{
    match fault {
        UndoFault::Memory => Err(NoMemory),
        UndoFault::InBatch => refused(alloc, line, "InBatch"),
        UndoFault::ClocksSpent(last) => refused_number(alloc, line, "ClocksSpent", *last),
        UndoFault::BatchTooLarge(bytes) => refused_number(alloc, line, "BatchTooLarge", *bytes),
        UndoFault::TooLarge(bytes) => refused_number(alloc, line, "TooLarge", *bytes),
    }
}

/// Of a presence or an event.
pub(crate) fn of_saying(alloc: Global, line: u64, fault: &SayFault) -> Result<Text, NoMemory>
    ensures { IfOk result (TellsSaying line fault.now) }
{
    match fault {
        SayFault::Memory => Err(NoMemory),
        SayFault::NotConnected => refused(alloc, line, "NotConnected"),
        SayFault::ValueTooDeep(depth) => refused_number(alloc, line, "ValueTooDeep", *depth),
        SayFault::TooLarge(bytes) => refused_number(alloc, line, "TooLarge", *bytes),
    }
}

/// Why a text is no frame, in words.
fn reason_text(alloc: Global, reason: &Reason) -> Result<Text, NoMemory>
    ensures { IfOk result (λ t. t ≡ model_text reason.now) }
{
    match reason {
        Reason::Size => Text::from_str(alloc, "size"),
        Reason::Json => Text::from_str(alloc, "json"),
        Reason::Depth => Text::from_str(alloc, "depth"),
        Reason::Number => Text::from_str(alloc, "number"),
        Reason::List => Text::from_str(alloc, "list"),
        Reason::Kind => Text::from_str(alloc, "type"),
        Reason::Field(name) => {
            let mut text = Text::from_str(alloc, "field ")?;
            text.push_str(name.as_str())?;
            Ok(text)
        }
        Reason::Hello => Text::from_str(alloc, "hello"),
        Reason::Room => Text::from_str(alloc, "room"),
    }
}

fn of_bad(alloc: Global, line: u64, reason: &Reason) -> Result<Text, NoMemory>
    ensures { IfOk result (λ t. t ≡ refused_line line (frame_fault_words (BadServerFrame reason.now))) }
{
    let why = reason_text(alloc, reason)?;
    refused_text(alloc, line, "BadServerFrame", why.as_str())
}

/// Of a frame.
pub(crate) fn of_frame(alloc: Global, line: u64, fault: FrameFault) -> Result<Text, NoMemory>
    ensures { IfOk result (TellsFrame line fault) }
{
    let said = of_fault(alloc, line, &fault);
    drop(fault);
    said
}

fn of_fault(alloc: Global, line: u64, fault: &FrameFault) -> Result<Text, NoMemory>
    ensures { IfOk result (TellsFrame line fault.now) }
{
    match fault {
        FrameFault::Memory => Err(NoMemory),
        FrameFault::BadServerFrame(reason) => of_bad(alloc, line, reason),
        FrameFault::Unexpected(kind) => refused_number(alloc, line, "Unexpected", *kind),
        FrameFault::NotATree => refused(alloc, line, "NotATree"),
        FrameFault::Gap(expected, got) => refused_numbers(alloc, line, "Gap", *expected, *got),
        FrameFault::Account(kept, got) => refused_numbers(alloc, line, "Account", *kept, *got),
        FrameFault::Parts(kept, got) => refused_numbers(alloc, line, "Parts", *kept, *got),
    }
}
