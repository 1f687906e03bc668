//! Cases of `room_history`: what calls in a row leave.
use room_case_text::Broken;
use room_history::History;
use room_json::{Copied, Members, NoMemory, Seq};
use room_nodes::{Change, Changes};
use std::alloc::Global;

fn entry_of(alloc: Global, count: u8) -> Result<Changes, NoMemory> {
    let mut entry = Seq::new(alloc);
    for _ in 0..count {
        entry.push(Change::Presence(Members::new(alloc)))?;
    }
    Ok(entry)
}

/// One call: a digit notes an entry of that many changes, `p` pauses, `r` resumes, `c` clears, and `u` undoes and `d`
/// redoes, where there is an entry.
fn make(alloc: Global, history: &mut History, call: u8) -> Result<(), NoMemory> {
    match call {
        b'p' => history.pause(),
        b'r' => history.resume(),
        b'c' => history.clear(),
        b'u' => {
            if let Some(entry) = history.undo_entry() {
                let back = entry.copy(alloc)?;
                history.undone(back);
            }
        },
        b'd' => {
            if let Some(entry) = history.redo_entry() {
                let back = entry.copy(alloc)?;
                history.redone(back);
            }
        },
        _ => history.note(entry_of(alloc, call.saturating_sub(b'0'))?)?,
    }
    Ok(())
}

/// How many entries can be undone and redone once the calls were made, and how many changes the next ones have.
pub(crate) fn left_by(alloc: Global, calls: &str) -> Result<String, Broken> {
    let mut history = History::new(alloc)?;
    for call in calls.as_bytes() {
        make(alloc, &mut history, *call)?;
    }
    let undo = match history.undo_entry() {
        Some(entry) => entry.len(),
        None => 0,
    };
    let redo = match history.redo_entry() {
        Some(entry) => entry.len(),
        None => 0,
    };
    let (undos, redos) = (history.undo_count(), history.redo_count());
    Ok(format!(in alloc; "undo {undos} with {undo}, redo {redos} with {redo}")?)
}
