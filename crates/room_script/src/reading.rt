//! Reading schedules and scripts.
ghost use Rattle.std.specs.Prelude.{◌≡◌, ◌+◌, ◌∷◌, List, ℕ, Ok, IfOk, IfErr, OnOk};
ghost use Rattle.room_script.specs.Grammar.{rows, schedule_in, script_in};
ghost use Rattle.room_script.specs.Told.{told_of};
ghost use Rattle.room_script.specs.Forms.{AreScheduled, AreScripted, IsFaultOf, lines_of, script_lines_of};
ghost use Rattle.room_script.specs.Forms.{behind_lines, told_from, told_in, told_lines};
ghost use Rattle.room_script.specs.Giving.{Gives};

use crate::fault::{Misread, ScriptFault};
use crate::lines::{Line, Schedule, Script};
use crate::rows::{cut_row, is_skipped};
use crate::schedules::read_schedule_line;
use crate::scripts::read_script_line;
use std::alloc::Global;

/// Which lines a text has.
#[derive(Clone, Copy, Debug, PartialEq, Eq)]
pub(crate) enum Form {
    Schedule,
    Script,
}

/// Reads a schedule: its lines with their numbers, or the number of the first line outside the grammar.
pub fn read_schedule(alloc: Global, b: &[u8]) -> Result<Schedule, ScriptFault>
    ensures ok { IfOk result (λ s. schedule_in b.now ≡ Ok (lines_of s)) }
    ensures all { IfOk result AreScheduled }
    ensures err { IfErr result (IsFaultOf (schedule_in b.now)) }
{
    read_lines(alloc, Form::Schedule, b)
}

/// Reads a script: its lines with their numbers, or the number of the first line outside the grammar.
pub fn read_script(alloc: Global, b: &[u8]) -> Result<Script, ScriptFault>
    ensures ok { IfOk result (λ s. script_in b.now ≡ Ok (script_lines_of s)) }
    ensures all { IfOk result AreScripted }
    ensures err { IfErr result (IsFaultOf (script_in b.now)) }
{
    read_lines(alloc, Form::Script, b)
}

fn read_lines(alloc: Global, form: Form, text: &[u8]) -> Result<Schedule, ScriptFault>
    ensures ok { IfOk result (λ ls. told_from form 1 (rows text.now) ≡ Ok (told_lines ls)) }
    ensures err { IfErr result (IsFaultOf (told_from form 1 (rows text.now))) }
{
    let mut lines = Schedule::new(alloc);
    let mut rest = text;
    let mut number: u64 = 1;
    while !rest.is_empty() {
        let (row, behind) = cut_row(rest);
        match read_row(alloc, form, number, row, &mut lines) {
            Ok(()) => {}
            Err(fault) => return Err(fault),
        }
        rest = behind;
        number += 1;
    }
    Ok(lines)
}

/// Reads a row and puts its line behind those before it.
fn read_row(
    alloc: Global,
    form: Form,
    number: u64,
    row: &[u8],
    lines: &mut Schedule,
) -> Result<(), ScriptFault>
    ensures ok { (rs : List (List ℕ)) → OnOk result
        (behind_lines (told_lines lines.old) (told_from form number (row.now ∷ rs))
        ≡ behind_lines (told_lines lines.new) (told_from form (number + 1) rs)) }
    ensures err { (rs : List (List ℕ)) → IfErr result (IsFaultOf (told_from form number (row.now ∷ rs))) }
{
    if is_skipped(row) {
        return Ok(());
    }
    match read_line(alloc, form, row) {
        Ok(line) => {
            lines.push((number, line))?;
            Ok(())
        }
        Err(Misread::Memory) => Err(ScriptFault::Memory),
        Err(Misread::Outside) => Err(ScriptFault::BadLine(number)),
    }
}

fn read_line(alloc: Global, form: Form, row: &[u8]) -> Result<Line, Misread>
    ensures { Gives told_of result (told_in form row.now) }
{
    match form {
        Form::Schedule => read_schedule_line(alloc, row),
        Form::Script => read_script_line(alloc, row),
    }
}
