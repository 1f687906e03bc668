//! Reading the text of access.
ghost use Rattle.std.specs.Prelude.{◌≡◌, ◌+◌, ◌∷◌, List, ℕ, Ok, IfOk, IfErr, OnOk};
ghost use Rattle.room_script.specs.Grammar.{lines_from};
ghost use Rattle.room_access.specs.Grammar.{access_in, access_line};
ghost use Rattle.room_access.specs.Lines.{line_of, with_last, behind, IsFaultOf};
ghost use Rattle.room_access.specs.View.{access_of};

use crate::access::{Access, Passes, Policy};
use crate::fault::{AccessFault, Misread};
use crate::lines::{Line, read_line};
use crate::rows::{cut_row, is_skipped};
use room_json::NoMemory;
use std::alloc::Global;

/// Reads an access text: its passes and its rules, or the number of the first line outside the grammar.
pub fn read_access(alloc: Global, b: &[u8]) -> Result<Access, AccessFault>
    ensures ok { IfOk result (λ a. access_in b.now ≡ Ok (access_of a)) }
    ensures err { IfErr result (IsFaultOf (access_in b.now)) }
{
    let mut access = Access {
        passes: Passes::new(alloc),
        policy: Policy::new(alloc),
    };
    let mut rest = b;
    let mut number: u64 = 1;
    while !rest.is_empty() {
        let (row, behind) = cut_row(rest);
        match read_row(alloc, number, row, &mut access) {
            Ok(()) => {}
            Err(fault) => return Err(fault),
        }
        rest = behind;
        number += 1;
    }
    Ok(access)
}

/// Reads a row and puts its pass or its rule behind those before it.
fn read_row(alloc: Global, number: u64, row: &[u8], access: &mut Access) -> Result<(), AccessFault>
    ensures ok { (rs : List (List ℕ)) → OnOk result
        (behind (access_of access.old) (lines_from access_line number (row.now ∷ rs))
        ≡ behind (access_of access.new) (lines_from access_line (number + 1) rs)) }
    ensures err { (rs : List (List ℕ)) → IfErr result (IsFaultOf (lines_from access_line number (row.now ∷ rs))) }
{
    if is_skipped(row) {
        return Ok(());
    }
    match read_line(alloc, row) {
        Ok(line) => {
            put_line(access, line)?;
            Ok(())
        }
        Err(Misread::Memory) => Err(AccessFault::Memory),
        Err(Misread::Outside) => Err(AccessFault::BadLine(number)),
    }
}

/// Puts a line behind those before it.
fn put_line(access: &mut Access, line: Line) -> Result<(), NoMemory>
    ensures { OnOk result (access_of access.new ≡ with_last (access_of access.old) (line_of line)) }
{
    match line {
        Line::Pass(entry) => access.passes.push(entry),
        Line::Rule(entry) => access.policy.push(entry),
    }
}
