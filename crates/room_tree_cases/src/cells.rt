//! Cases of `room_foot`: the cells that operations read and write, and which operations are apart.
use room_case_text::{Broken, item, op_of, value};
use room_foot::{apart, reads, touches, writes};
use room_json::Copied;
use room_nodes::{Cell, Cells, Op};
use room_tree::Tree;
use std::alloc::Global;

/// What comes of a case of cells.
pub(crate) fn outcome<T: Tree>(
    alloc: Global,
    t: &T,
    verb: &str,
    rest: &str,
) -> Result<String, Broken> {
    let v = value(alloc, rest)?;
    match verb {
        "of" => cells_of(alloc, t, &op_of(alloc, &v)?),
        "apart" => {
            let a = op_of(alloc, item(&v, 0)?)?;
            let b = op_of(alloc, item(&v, 1)?)?;
            are_apart(alloc, t, &a, &b)
        },
        _ => Err(Broken::Verb),
    }
}

fn push_cell(alloc: Global, text: &mut String, cell: &Cell) -> Result<(), Broken> {
    match cell {
        Cell::Node(id) => text.push_str(id.text(alloc)?.as_str())?,
        Cell::Slot(id, key) => {
            text.push_str(id.text(alloc)?.as_str())?;
            text.push_str(".")?;
            text.push_str(key.as_str())?;
        },
        Cell::All(id) => {
            text.push_str(id.text(alloc)?.as_str())?;
            text.push_str("*")?;
        },
    }
    Ok(())
}

/// A node as its id, a slot as `id.key`, all slots as `id*`, each behind a blank.
fn push_cells(alloc: Global, text: &mut String, cells: &Cells) -> Result<(), Broken> {
    for cell in cells.as_slice() {
        text.push_str(" ")?;
        push_cell(alloc, text, cell)?;
    }
    Ok(())
}

fn cells_of<T: Tree>(alloc: Global, t: &T, op: &Op) -> Result<String, Broken> {
    let mut text = format!(in alloc; "reads")?;
    push_cells(alloc, &mut text, &reads(alloc, t, op)?.copy(alloc)?)?;
    text.push_str(", writes")?;
    push_cells(alloc, &mut text, &writes(alloc, t, op)?)?;
    Ok(text)
}

/// Whether the cells that one operation writes touch what the other reads or writes.
fn disturbs<T: Tree>(alloc: Global, t: &T, a: &Op, b: &Op) -> Result<bool, Broken> {
    let written = writes(alloc, t, a)?;
    Ok(
        touches(written.as_slice(), reads(alloc, t, b)?.as_slice())
            || touches(written.as_slice(), writes(alloc, t, b)?.as_slice()),
    )
}

/// Whether two operations are apart, as is told of them and of their cells.
fn are_apart<T: Tree>(alloc: Global, t: &T, a: &Op, b: &Op) -> Result<String, Broken> {
    let by_cells = !disturbs(alloc, t, a, b)? && !disturbs(alloc, t, b, a)?;
    Ok(format!(in alloc; "{} {by_cells}", apart(t, a, b))?)
}
