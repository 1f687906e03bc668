//! Steps of a tree, all or none.
ghost use Rattle.std.specs.Prelude.{◌≡◌, ◌≤◌, ◌<◌, ◌+◌, ◌++◌, ◌∷◌, [], ℕ, length, vec_len, vec_capacity, OnOk, OnErr};
ghost use Rattle.std.specs.FinMap.{len};
ghost use Rattle.room_nodes.specs.Shape.{Nodes};
ghost use Rattle.room_nodes.specs.Steps.{fold};
ghost use Rattle.room_log.specs.Log.{bodies_of};
ghost use Rattle.room_overlay.specs.Together.{LeadBack};

use room_apply::{Edits, back, step};
use room_json::NoMemory;
use room_nodes::Op;
use room_tree::Tree;
use std::alloc::Global;

/// Adds what takes a step back, where there is room.
fn keep(edits: &mut Vec<Edits>, one: Edits)
    requires room { vec_len edits.old < vec_capacity edits.old }
    ensures items { edits.new.items ≡ edits.old.items ++ one ∷ [] }
    ensures len { vec_len edits.new ≡ vec_len edits.old + 1 }
    ensures capacity { vec_capacity edits.old ≤ vec_capacity edits.new }
{
    match edits.push(one) {
        Ok(()) => (),
        Err(_) => unreachable!(),
    }
}

/// Takes steps back, the last first.
fn back_all<T: Tree>(t: &mut T, edits: &mut Vec<Edits>)
    requires { (s : Nodes) × LeadBack s edits.old.items (T.nodes t.old) (len (T.nodes t.old) + T.spare t.old) }
    ensures { (s : Nodes) → LeadBack s edits.old.items (T.nodes t.old) (len (T.nodes t.old) + T.spare t.old)
        → T.nodes t.new ≡ s }
{
    while let Some(one) = edits.pop() {
        let mut one = one;
        back(t, &mut one);
    }
}

/// Steps a tree by operations, as far as there is memory, and keeps what takes the steps back.
fn step_each<T: Tree>(
    alloc: Global,
    t: &mut T,
    ops: &[Op],
    edits: &mut Vec<Edits>,
) -> Result<(), NoMemory>
    requires room { vec_len edits.old + length ops.now ≤ vec_capacity edits.old }
    requires none { edits.old.items ≡ [] }
    ensures ok { OnOk result (T.nodes t.new ≡ fold (T.nodes t.old) (bodies_of ops.now)) }
    ensures back { LeadBack (T.nodes t.old) edits.new.items (T.nodes t.new) (len (T.nodes t.new) + T.spare t.new) }
{
    for op in ops {
        keep(edits, step(alloc, t, op)?);
    }
    Ok(())
}

/// Steps a tree by operations, all or none. Takes the memory for the way back first.
pub(crate) fn step_all<T: Tree>(alloc: Global, t: &mut T, ops: &[Op]) -> Result<(), NoMemory>
    ensures ok { OnOk result (T.nodes t.new ≡ fold (T.nodes t.old) (bodies_of ops.now)) }
    ensures err { OnErr result (T.nodes t.new ≡ T.nodes t.old) }
{
    let mut edits: Vec<Edits> = Vec::new(alloc);
    edits.reserve(ops.len())?;
    match step_each(alloc, t, ops, &mut edits) {
        Ok(()) => Ok(()),
        Err(NoMemory) => {
            back_all(t, &mut edits);
            Err(NoMemory)
        }
    }
}
