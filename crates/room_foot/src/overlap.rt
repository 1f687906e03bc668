//! Cells against cells.
ghost use Rattle.std.specs.Prelude.{◌≡◌};
ghost use Rattle.std.specs.Cmp.Lexicographic.{slice_cmp};
ghost use Rattle.std.specs.Ordering.{eq_by_cmp, nat_cmp};
ghost use Rattle.room_nodes.specs.Cells.{meets, overlaps, overlaps_some};

use room_ids::same_id;
use room_json::Text;
use room_nodes::Cell;
use std::cmp::Ordering;

pub(crate) fn same_key(j: &Text, k: &Text) -> bool
    ensures { result ≡ eq_by_cmp (slice_cmp nat_cmp) j.now k.now }
{
    j.cmp(k) == Ordering::Equal
}

fn overlap(c: &Cell, d: &Cell) -> bool
    ensures { result ≡ overlaps c.now d.now }
{
    match (c, d) {
        (Cell::Node(x), Cell::Node(y)) => same_id(x, y),
        (Cell::Slot(x, j), Cell::Slot(y, k)) => same_id(x, y) && same_key(j, k),
        (Cell::Slot(x, _), Cell::All(y)) => same_id(x, y),
        (Cell::All(x), Cell::Slot(y, _)) => same_id(x, y),
        (Cell::All(x), Cell::All(y)) => same_id(x, y),
        _ => false,
    }
}

fn overlaps_one(c: &Cell, others: &[Cell]) -> bool
    ensures { result ≡ overlaps_some c.now others.now }
{
    for d in others {
        if overlap(c, d) {
            return true;
        }
    }
    false
}

/// Whether a cell of one list overlaps one of the other.
pub fn touches(cells: &[Cell], others: &[Cell]) -> bool
    ensures { result ≡ meets cells.now others.now }
{
    for c in cells {
        if overlaps_one(c, others) {
            return true;
        }
    }
    false
}
