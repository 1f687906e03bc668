//! What a list of operations touches.
ghost use Rattle.std.specs.Prelude.{◌≡◌, ◌++◌, IfOk, OnOk};
ghost use Rattle.room_nodes.specs.Cells.{cells_all, writes as writes_of, writes_all};
ghost use Rattle.room_nodes.specs.Steps.{step as step_of};
ghost use Rattle.room_log.specs.Log.{bodies_of};
ghost use Rattle.room_overlay.specs.Touched.{cells_of};

use room_apply::step;
use room_foot::{Cells, reads, writes};
use room_json::{Copied, NoMemory, Seq};
use room_nodes::Op;
use room_tree::{Tree, copy_of};
use std::alloc::Global;

/// The cells that operations write, and all that they read or write.
#[derive(Drop)]
pub(crate) struct Touched {
    pub(crate) written: Cells,
    pub(crate) all: Cells,
}

/// Puts cells behind others.
fn append(alloc: Global, cells: &mut Cells, more: Cells) -> Result<(), NoMemory>
    ensures { OnOk result (cells.new ≡ cells.old ++ more) }
{
    let mut more = more.into_vec();
    let mut all = std::mem::replace(cells, Seq::new(alloc)).into_vec();
    all.append(&mut more)?;
    *cells = Seq::from_vec(all);
    Ok(())
}

/// Adds what an operation touches, and steps the tree by it.
fn touch<T: Tree>(alloc: Global, t: &mut T, op: &Op, touched: &mut Touched) -> Result<(), NoMemory>
    ensures written { OnOk result (touched.new.written ≡ touched.old.written ++ writes_of (T.nodes t.old) op.now.body) }
    ensures all { OnOk result (touched.new.all ≡ touched.old.all ++ cells_of (T.nodes t.old) op.now.body) }
    ensures tree { OnOk result (T.nodes t.new ≡ step_of (T.nodes t.old) op.now.body) }
{
    let mut cells = reads(alloc, t, op)?;
    let written = writes(alloc, t, op)?;
    append(alloc, &mut cells, written.copy(alloc)?)?;
    append(alloc, &mut touched.all, cells)?;
    append(alloc, &mut touched.written, written)?;
    drop(step(alloc, t, op)?);
    Ok(())
}

/// What operations touch on a tree, one after the other. Steps a copy of the tree.
pub(crate) fn touched_by<T: Tree>(alloc: Global, t: &T, ops: &[Op]) -> Result<Touched, NoMemory>
    ensures written { IfOk result (λ x. x.written ≡ writes_all (T.nodes t.now) (bodies_of ops.now)) }
    ensures all { IfOk result (λ x. x.all ≡ cells_all (T.nodes t.now) (bodies_of ops.now)) }
{
    let mut copy = copy_of(alloc, t)?;
    let mut touched = Touched {
        written: Seq::new(alloc),
        all: Seq::new(alloc),
    };
    for op in ops {
        touch(alloc, &mut copy, op, &mut touched)?;
    }
    Ok(touched)
}
