//! Lines of calls that were refused, or did nothing.
ghost use Rattle.std.specs.Prelude.{◌≡◌, [], ◌∷◌, decimal, IfOk};
ghost use Rattle.room_model.specs.Lines.{refused_line, nothing_line};

use crate::words::{add, add_number};
use room_json::{NoMemory, Text};
use std::alloc::Global;

/// The call in that line of the schedule is refused, for what that name says.
pub fn refused(alloc: Global, line: u64, name: &str) -> Result<Text, NoMemory>
    ensures { IfOk result (λ t. t ≡ refused_line line (name.now ∷ [])) }
{
    let mut text = Text::from_str(alloc, "refused")?;
    add_number(alloc, &mut text, line)?;
    add(&mut text, name)?;
    Ok(text)
}

/// The same with a text behind the name, as an id or a reason.
pub fn refused_text(alloc: Global, line: u64, name: &str, value: &str) -> Result<Text, NoMemory>
    ensures { IfOk result (λ t. t ≡ refused_line line (name.now ∷ value.now ∷ [])) }
{
    let mut text = refused(alloc, line, name)?;
    add(&mut text, value)?;
    Ok(text)
}

/// The same with a number.
pub fn refused_number(alloc: Global, line: u64, name: &str, value: u64) -> Result<Text, NoMemory>
    ensures { IfOk result (λ t. t ≡ refused_line line (name.now ∷ decimal value ∷ [])) }
{
    let mut text = refused(alloc, line, name)?;
    add_number(alloc, &mut text, value)?;
    Ok(text)
}

/// The same with two numbers.
pub fn refused_numbers(
    alloc: Global,
    line: u64,
    name: &str,
    first: u64,
    second: u64,
) -> Result<Text, NoMemory>
    ensures { IfOk result (λ t. t ≡ refused_line line (name.now ∷ decimal first ∷ decimal second ∷ [])) }
{
    let mut text = refused_number(alloc, line, name, first)?;
    add_number(alloc, &mut text, second)?;
    Ok(text)
}

/// The undo or redo in that line found no entry.
pub fn nothing(alloc: Global, line: u64) -> Result<Text, NoMemory>
    ensures { IfOk result (λ t. t ≡ nothing_line line) }
{
    let mut text = Text::from_str(alloc, "nothing")?;
    add_number(alloc, &mut text, line)?;
    Ok(text)
}
