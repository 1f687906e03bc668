//! The laws, each the contract of a function without a body.
ghost use Rattle.room_steps.specs.Laws.{CellsStay, Footprints, KeepsShallow, KeepsSound};
ghost use Rattle.room_steps.specs.Laws.{Reversible, SameOnCells, SettlesOnce, UndoRestores};

/// A step of a sound tree by a sound operation is sound, and so is a fold. Sound trees and operations have an object's
/// fields in byte order of their names.
pub fn keeps_sound()
    ensures { KeepsSound }
{}

/// No step makes values deeper than those of the tree and of the operation.
pub fn keeps_shallow()
    ensures { KeepsShallow }
{}

/// Operations that were settled one after the other do what the operations do, and settle to themselves.
pub fn settles_once()
    ensures { SettlesOnce }
{}

/// A batch and its reversal lead back: the tree is what it was. Fields stand in byte order of their names, each name
/// once.
pub fn reversible()
    ensures { Reversible }
{}

/// What operations touch. Outside the cells that they write the tree stays as it was; two trees that agree on the cells
/// of a list of operations agree on them after it; and two lists of which neither writes what the other reads or
/// writes may be done in either order. Fields stand in byte order of their names, each name once.
pub fn footprints()
    ensures { Footprints }
{}

/// On two trees that agree on the cells of operations these cells are the same, and so is what takes the operations
/// back where both trees have their fields in byte order of their names, each name once.
pub fn same_on_cells()
    ensures { SameOnCells }
{}

/// The cells of operations that are apart from others stay as they were behind these.
pub fn cells_stay()
    ensures { CellsStay }
{}

/// Undoing a batch whose cells nothing else touched restores them: a batch, then operations that are apart from it,
/// then the reversal that was taken of it where it was made, leave the tree as if neither batch nor reversal had been.
/// The tree on which it was made and the one on which it was taken agree on its cells.
pub fn undo_restores()
    ensures { UndoRestores }
{}
