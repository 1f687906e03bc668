//! What follows of cells, each the contract of a function without a body.
ghost use Rattle.room_steps.specs.Laws.{AlikeAfter, CellsStay, EitherOrder, Outside, SameOnCells};

/// Outside the cells that operations write a tree stays as it was.
pub fn outside_cells()
    ensures { Outside }
{}

/// Two trees that agree on the cells of operations agree on them after these.
pub fn same_after()
    ensures { AlikeAfter }
{}

/// Operations that are apart may be done in either order. Fields stand in byte order of their names, each name once.
pub fn either_order()
    ensures { EitherOrder }
{}

/// On two trees that agree on the cells of operations these cells are the same. So is what takes the operations back,
/// where both trees have their fields in byte order of their names, each name once.
pub fn same_on_cells()
    ensures { SameOnCells }
{}

/// The cells of operations that are apart from others stay as they were behind these.
pub fn cells_stay()
    ensures { CellsStay }
{}
