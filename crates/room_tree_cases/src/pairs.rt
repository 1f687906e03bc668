//! Cases of two operations that are taken back in either order.
ghost use Rattle.std.specs.Prelude.{List, OnOk};
ghost use Rattle.room_nodes.specs.Shape.{Nodes};
ghost use Rattle.room_nodes.specs.declared.cells.Cell.{Cell};
ghost use Rattle.room_apply.specs.Ways.{IsWithCells, before};
ghost use Rattle.room_tree_cases.specs.Pairs.{MayFit};

use crate::listing::listing;
use room_apply::{Edits, back, fit, step};
use room_case_text::{Broken, item, op_of, value};
use room_foot::apart;
use room_json::NoMemory;
use room_nodes::Op;
use room_tree::Tree;
use std::alloc::Global;

/// What comes of a case of two operations.
pub(crate) fn outcome<T: Tree>(
    alloc: Global,
    t: &mut T,
    verb: &str,
    rest: &str,
) -> Result<String, Broken> {
    let v = value(alloc, rest)?;
    let a = op_of(alloc, item(&v, 0)?)?;
    let b = op_of(alloc, item(&v, 1)?)?;
    match verb {
        "back" => both_ways(alloc, t, &a, &b),
        _ => Err(Broken::Verb),
    }
}

/// The tree once the second was taken back, and once the first was; or the trees that are left, if it is not the same
/// in the end.
fn both_ways<T: Tree>(alloc: Global, t: &mut T, a: &Op, b: &Op) -> Result<String, Broken> {
    let start = listing(alloc, t)?;
    let first = last_first(alloc, t, a, b)?;
    let middle = listing(alloc, t)?;
    let second = first_first(alloc, t, a, b)?;
    let end = listing(alloc, t)?;
    if middle == start && end == start {
        Ok(format!(in alloc; "{first} or {second}")?)
    } else {
        Ok(format!(in alloc; "not back: {middle} or {end}")?)
    }
}

/// Takes a step back on a tree that has its cells as the step left them. The other fields of the object whose fields it
/// changed stay as they are.
fn fitted_back<T: Tree>(alloc: Global, t: &mut T, e: &mut Edits) -> Result<(), NoMemory>
    requires { (cs : List Cell) × ((u : Nodes) × MayFit cs u (T.nodes t.old) e.old) }
    ensures { OnOk result ((cs : List Cell) (u : Nodes) → MayFit cs u (T.nodes t.old) e.old
        → IsWithCells cs (before u e.old) (T.nodes t.old) (T.nodes t.new)) }
{
    fit(alloc, t, e)?;
    t.reserve(e.nodes())?;
    back(t, e);
    Ok(())
}

/// The tree between, where of two operations the last is taken back first.
fn last_first<T: Tree>(alloc: Global, t: &mut T, a: &Op, b: &Op) -> Result<String, Broken> {
    let mut first = step(alloc, t, a)?;
    let mut second = step(alloc, t, b)?;
    back(t, &mut second);
    let between = listing(alloc, t)?;
    fitted_back(alloc, t, &mut first)?;
    Ok(between)
}

/// The tree between, where of two operations that are apart the first is taken back first.
fn first_first<T: Tree>(alloc: Global, t: &mut T, a: &Op, b: &Op) -> Result<String, Broken> {
    if !apart(t, a, b) {
        return Err(Broken::Apart);
    }
    let mut first = step(alloc, t, a)?;
    let mut second = step(alloc, t, b)?;
    fitted_back(alloc, t, &mut first)?;
    let between = listing(alloc, t)?;
    fitted_back(alloc, t, &mut second)?;
    Ok(between)
}
