//! How many bytes frames have.
ghost use Rattle.std.specs.Prelude.{◌≡◌, ◌+◌, length, IfOk};
ghost use Rattle.room_json.specs.Value.{text_of};
ghost use Rattle.room_model.specs.Calls.{presence_size};
ghost use Rattle.room_wire.specs.Written.{op_out};
ghost use Rattle.room_editor.specs.Sizes.{bytes_of, frame_bytes as frame_bytes_of};

use room_json::{Copied, Members, NoMemory, write};
use room_msg::{ClientMsg, ClientMsgs, write_client};
use room_nodes::Op;
use room_wire::write_op;
use std::alloc::Global;

fn sum(a: u64, b: u64) -> Result<u64, NoMemory>
    ensures { IfOk result (λ n. n ≡ a + b) }
{
    a.checked_add(b).ok_or(NoMemory)
}

fn text_bytes(alloc: Global, op: &Op) -> Result<u64, NoMemory>
    ensures { IfOk result (λ n. n ≡ length (text_of (op_out op.now))) }
{
    let value = write_op(alloc, op)?;
    let text = write(alloc, &value)?;
    Ok(text.len())
}

/// So many bytes, and those that operations take in a frame: of each its text and a comma.
pub(crate) fn with_ops(alloc: Global, before: u64, ops: &[Op]) -> Result<u64, NoMemory>
    ensures { IfOk result (λ n. n ≡ before + bytes_of ops.now) }
{
    let mut bytes = before;
    for op in ops {
        let more = sum(text_bytes(alloc, op)?, 1)?;
        bytes = sum(bytes, more)?;
    }
    Ok(bytes)
}

/// The bytes of the frame of operations that take so many.
pub(crate) fn frame_bytes(bytes: u64) -> Result<u64, NoMemory>
    ensures { IfOk result (λ n. n ≡ frame_bytes_of bytes) }
{
    sum(22, bytes.max(1))
}

/// The bytes of the frame of a whole presence to one other.
pub(crate) fn presence_bytes(alloc: Global, me: &Members) -> Result<u64, NoMemory>
    ensures { IfOk result (λ n. n ≡ presence_size me.now) }
{
    let mut msgs = ClientMsgs::new(alloc);
    let patch = me.copy(alloc)?;
    msgs.push(ClientMsg::Presence {
        target: Some(4294967295),
        patch,
    })?;
    let text = write_client(alloc, &msgs)?;
    Ok(text.len())
}
