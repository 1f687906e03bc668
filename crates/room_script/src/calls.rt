//! What a client is told and asked, as text.
ghost use Rattle.std.specs.Prelude.{◌≡◌, option_map};
ghost use Rattle.std.specs.Option.{option_copied};
ghost use Rattle.room_script.specs.Grammar.{call_named, history_named, said_named, question_named};
ghost use Rattle.room_model.specs.Lines.{Presence};
ghost use Rattle.room_script.specs.Words.{object_to_end};
ghost use Rattle.room_script.specs.Giving.{Gives};
ghost use Rattle.room_script.specs.Told.{told_of, called, asked};

use crate::edits::read_edit;
use crate::fault::Misread;
use crate::lines::{Line, Spot};
use crate::words::{at_end, last_object, last_value};
use std::alloc::Global;

/// A call of a client, by its name and what is left behind it.
pub(crate) fn read_call(
    alloc: Global,
    client: u32,
    name: &[u8],
    rest: Option<&[u8]>,
) -> Result<Line, Misread>
    ensures { Gives told_of result (option_map (called client) (call_named name.now (option_copied rest.entry))) }
{
    if name == b"dial".as_slice() {
        at_end(rest)?;
        Ok(Line::Dial(client))
    } else if name == b"edit".as_slice() {
        let edit = read_edit(alloc, rest)?;
        Ok(Line::Edit(client, edit))
    } else if name == b"begin".as_slice() {
        at_end(rest)?;
        Ok(Line::Begin(client))
    } else if name == b"end".as_slice() {
        at_end(rest)?;
        Ok(Line::End(client))
    } else {
        read_history_call(alloc, client, name, rest)
    }
}

fn read_history_call(
    alloc: Global,
    client: u32,
    name: &[u8],
    rest: Option<&[u8]>,
) -> Result<Line, Misread>
    ensures { Gives told_of result (option_map (called client) (history_named name.now (option_copied rest.entry))) }
{
    if name == b"undo".as_slice() {
        at_end(rest)?;
        Ok(Line::Undo(client))
    } else if name == b"redo".as_slice() {
        at_end(rest)?;
        Ok(Line::Redo(client))
    } else if name == b"pause".as_slice() {
        at_end(rest)?;
        Ok(Line::Pause(client))
    } else if name == b"resume".as_slice() {
        at_end(rest)?;
        Ok(Line::Resume(client))
    } else if name == b"clear".as_slice() {
        at_end(rest)?;
        Ok(Line::Clear(client))
    } else {
        read_said(alloc, client, name, rest)
    }
}

/// What a client says and sends.
#[tactic(auto, using(room_json::proofs::Again::json_again))]
fn read_said(alloc: Global, client: u32, name: &[u8], rest: Option<&[u8]>) -> Result<Line, Misread>
    ensures { Gives told_of result (option_map (called client) (said_named name.now (option_copied rest.entry))) }
{
    if name == b"presence".as_slice() {
        read_presence(alloc, client, rest, false)
    } else if name == b"presence+".as_slice() {
        read_presence(alloc, client, rest, true)
    } else if name == b"event".as_slice() {
        let event = last_value(alloc, rest)?;
        Ok(Line::Event(client, event))
    } else if name == b"flush".as_slice() {
        at_end(rest)?;
        Ok(Line::Flush(client))
    } else if name == b"resend".as_slice() {
        at_end(rest)?;
        Ok(Line::Resend(client))
    } else if name == b"cut".as_slice() {
        at_end(rest)?;
        Ok(Line::Cut(client))
    } else {
        Err(Misread::Outside)
    }
}

fn read_presence(
    alloc: Global,
    client: u32,
    rest: Option<&[u8]>,
    in_history: bool,
) -> Result<Line, Misread>
    ensures { Gives told_of result
        (option_map (λ p. called client (Presence p in_history)) (object_to_end (option_copied rest.entry))) }
{
    let patch = last_object(alloc, rest)?;
    Ok(Line::Presence {
        client,
        patch,
        in_history,
    })
}

/// What is asked of a client, by its name.
pub(crate) fn read_question(client: u32, name: &[u8], rest: Option<&[u8]>) -> Result<Line, Misread>
    ensures { Gives told_of result (option_map (asked client) (question_named name.now (option_copied rest.entry))) }
{
    if name == b"show".as_slice() {
        at_end(rest)?;
        Ok(Line::Show(Spot::Client(client)))
    } else if name == b"others".as_slice() {
        at_end(rest)?;
        Ok(Line::Others(client))
    } else if name == b"history".as_slice() {
        at_end(rest)?;
        Ok(Line::History(client))
    } else if name == b"notices".as_slice() {
        at_end(rest)?;
        Ok(Line::Notices(client))
    } else {
        Err(Misread::Outside)
    }
}
