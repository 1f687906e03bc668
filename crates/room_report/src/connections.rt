//! Lines of a connection.
ghost use Rattle.std.specs.Prelude.{◌≡◌, IfOk};
ghost use Rattle.room_model.specs.Lines.{got_line, closed_line};

use crate::words::{add, add_number};
use room_json::{NoMemory, Text};
use std::alloc::Global;

/// A frame that a link takes.
pub fn got(alloc: Global, k: u64, text: &Text) -> Result<Text, NoMemory>
    ensures { IfOk result (λ t. t ≡ got_line k text.now) }
{
    let mut line = Text::from_str(alloc, "got")?;
    add_number(alloc, &mut line, k)?;
    add(&mut line, text.as_str())?;
    Ok(line)
}

/// A close that a client or a link takes.
pub fn closed(alloc: Global, k: u64, code: u16, text: &Text) -> Result<Text, NoMemory>
    ensures { IfOk result (λ t. t ≡ closed_line k code text.now) }
{
    let mut line = Text::from_str(alloc, "closed")?;
    add_number(alloc, &mut line, k)?;
    add_number(alloc, &mut line, u64::from(code))?;
    add(&mut line, text.as_str())?;
    Ok(line)
}
