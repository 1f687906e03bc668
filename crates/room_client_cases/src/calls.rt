//! Calls of a client, as the lines of a script, and what is asked of it.
use crate::broken::Broken;
use crate::refusals::{of_batch, of_edit, of_saying, of_undo};
use crate::texts::{all_shown, shown, told};
use room_client::{BatchFault, Client, SayFault, UndoFault};
use room_notice::Notices;
use room_props::EditFault;
use room_report::{history, others, show_client};
use room_script::{Line, read_script};
use room_tree::PlainTree;
use std::alloc::Global;

/// What comes of a line of a script.
pub(crate) fn outcome(
    alloc: Global,
    c: &mut Client<PlainTree>,
    text: &[u8],
) -> Result<String, Broken> {
    let script = read_script(alloc, text)?;
    match script.as_slice() {
        [(_, line)] => made(alloc, c, line),
        _ => Err(Broken::Line),
    }
}

fn done(alloc: Global) -> Result<String, Broken> {
    Ok(format!(in alloc; "ok")?)
}

/// A call of edits and batches.
fn made(alloc: Global, c: &mut Client<PlainTree>, line: &Line) -> Result<String, Broken> {
    match line {
        Line::Dial(_) => shown(alloc, &c.dial(alloc)?),
        Line::Edit(_, edit) => edited(alloc, c.edit(alloc, edit)),
        Line::Begin(_) => batched(alloc, c.batch_begin()),
        Line::End(_) => batched(alloc, c.batch_end()),
        _ => went(alloc, c, line),
    }
}

/// A call of the history.
fn went(alloc: Global, c: &mut Client<PlainTree>, line: &Line) -> Result<String, Broken> {
    match line {
        Line::Undo(_) => back(alloc, c.undo(alloc)),
        Line::Redo(_) => back(alloc, c.redo(alloc)),
        Line::Pause(_) => {
            c.pause();
            done(alloc)
        }
        Line::Resume(_) => {
            c.resume();
            done(alloc)
        }
        Line::Clear(_) => {
            c.clear();
            done(alloc)
        }
        _ => spoke(alloc, c, line),
    }
}

/// A call of what is said and sent.
fn spoke(alloc: Global, c: &mut Client<PlainTree>, line: &Line) -> Result<String, Broken> {
    match line {
        Line::Presence {
            client: _,
            patch,
            in_history,
        } => said(alloc, c.presence(alloc, patch, *in_history)),
        Line::Event(_, event) => said(alloc, c.event(alloc, event)),
        Line::Flush(_) => all_shown(alloc, &c.flush(alloc)?),
        Line::Resend(_) => all_shown(alloc, &c.resend(alloc)?),
        Line::Cut(_) => {
            c.lost(alloc);
            done(alloc)
        }
        _ => asked(alloc, c, line),
    }
}

/// What a client says of itself.
fn asked(alloc: Global, c: &Client<PlainTree>, line: &Line) -> Result<String, Broken> {
    let text = match line {
        Line::Show(_) => show_client(alloc, None, c.taken(), c.unacknowledged(), c.shown())?,
        Line::Others(_) => others(alloc, None, c.me(), &c.others(alloc)?)?,
        Line::History(_) => history(alloc, None, c.undo_count(), c.redo_count())?,
        _ => return Err(Broken::Line),
    };
    shown(alloc, &text)
}

fn edited(alloc: Global, answer: Result<Notices, EditFault>) -> Result<String, Broken> {
    match answer {
        Ok(notices) => told(alloc, &notices),
        Err(fault) => of_edit(alloc, &fault),
    }
}

fn batched(alloc: Global, answer: Result<(), BatchFault>) -> Result<String, Broken> {
    match answer {
        Ok(()) => done(alloc),
        Err(fault) => of_batch(alloc, fault),
    }
}

fn back(alloc: Global, answer: Result<Option<Notices>, UndoFault>) -> Result<String, Broken> {
    match answer {
        Ok(Some(notices)) => told(alloc, &notices),
        Ok(None) => Ok(format!(in alloc; "nothing")?),
        Err(fault) => of_undo(alloc, fault),
    }
}

fn said(alloc: Global, answer: Result<(), SayFault>) -> Result<String, Broken> {
    match answer {
        Ok(()) => done(alloc),
        Err(fault) => of_saying(alloc, fault),
    }
}
