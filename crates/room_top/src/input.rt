//! The input of a command.
ghost use Rattle.std.specs.Prelude.{◌≡◌, ◌≤◌, ℕ, List, Some, length, IfOk, IsErrOf};
ghost use Rattle.std.specs.Io.KnownBytes.{Consumes, IsAtEnd};
ghost use Rattle.room_edge.specs.Causes.{Rose};
ghost use Rattle.room_top.specs.Commands.{task_in};
ghost use Rattle.room_top.specs.Outcome.{TakesAtMost};

use room_edge::Source;
use std::alloc::Global;

/// Why the input was not read.
#[derive(Clone, Copy, Debug, PartialEq, Eq)]
pub(crate) enum ReadFault {
    Memory,
    Failed,
}

/// The input to its end, or one byte more than may be read.
fn read_to_end<S: Source>(alloc: Global, source: &mut S) -> Result<Vec<u8>, ReadFault>
    ensures ok { IfOk result (λ v. Consumes (S.left source.old) (S.left source.new) v.items) }
    ensures end { IfOk result (λ v. length v.items ≤ 16777216 → IsAtEnd (S.left source.new)) }
    ensures takes { TakesAtMost 16777217 (S.left source.old) (S.left source.new) }
    ensures later { S.faults source.old ≤ S.faults source.new }
    ensures cause { IsErrOf result ReadFault.Failed → Rose (S.faults source.old) (S.faults source.new) }
{
    let mut bytes = Vec::new(alloc);
    let mut buffer = [0u8; 4096];
    while bytes.len() < 16777217 {
        let room = (16777217 - bytes.len()).min(4096);
        let Ok(count) = source.read(&mut buffer[..room]) else {
            return Err(ReadFault::Failed);
        };
        if bytes.extend_from_slice(&buffer[..count]).is_err() {
            return Err(ReadFault::Memory);
        }
        if count == 0 {
            return Ok(bytes);
        }
    }
    Ok(bytes)
}

/// As much of the input as tells what it is: all of it, or one byte more than may be read.
pub(crate) fn read_all<S: Source>(alloc: Global, source: &mut S) -> Result<Vec<u8>, ReadFault>
    ensures task { (input : List ℕ) → S.left source.old ≡ Some input → IfOk result (λ v. task_in v.items ≡ task_in input) }
    ensures end { IfOk result (λ v. length v.items ≤ 16777216 → IsAtEnd (S.left source.new)) }
    ensures takes { TakesAtMost 16777217 (S.left source.old) (S.left source.new) }
    ensures later { S.faults source.old ≤ S.faults source.new }
    ensures cause { IsErrOf result ReadFault.Failed → Rose (S.faults source.old) (S.faults source.new) }
{
    read_to_end(alloc, source)
}
