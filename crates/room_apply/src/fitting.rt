//! Edits fitted to the fields that an object has by now.
ghost use Rattle.std.specs.Prelude.{◌≡◌, ℕ, List, [], IfOk, OnOk, OnErr};
ghost use Rattle.std.specs.Ordering.{nat_cmp};
ghost use Rattle.std.specs.Cmp.Lexicographic.{slice_cmp};
ghost use Rattle.std.specs.FinMap.{get, find};
ghost use Rattle.room_json.specs.View.{members_view};
ghost use Rattle.room_nodes.specs.Cells.{Agrees};
ghost use Rattle.room_nodes.specs.Primitives.{fields_in};
ghost use Rattle.room_nodes.specs.Shape.{Nodes};
ghost use Rattle.room_nodes.specs.declared.cells.Cell.{Cell};
ghost use Rattle.room_apply.specs.Edits.{puts_in, cuts_in};
ghost use Rattle.room_apply.specs.Ways.{GoesBack, backs, before, nodes_of, object_of, fitted, fitted_fields, fitted_in};
ghost use Rattle.room_apply.specs.Ways.{set_by};

use crate::edits::Edits;
use room_ids::NodeId;
use room_json::{Copied, Json, Members, NoMemory, Text};
use room_nodes::{Kind, Turn};
use room_tree::Tree;
use std::alloc::Global;
use std::collections::BTreeMap;

/// Gives a name of some fields the value that it has in others, or none.
fn set_again(alloc: Global, all: &mut Members, name: &Text, old: &Members) -> Result<(), NoMemory>
    ensures { OnOk result (all.new ≡ set_by (find (slice_cmp nat_cmp) name.now old.now) name.now all.old) }
{
    match old.find(name) {
        Some(value) => {
            drop(all.set(name.copy(alloc)?, value.copy(alloc)?)?);
            Ok(())
        },
        None => {
            all.len();
            drop(all.remove(name));
            Ok(())
        },
    }
}

/// Fields, with those of some names as they are in others.
fn fields_fit(
    alloc: Global,
    now: Members,
    names: &BTreeMap<Text, Json>,
    old: &Members,
) -> Result<Members, NoMemory>
    ensures { IfOk result (λ m. m ≡ fitted_fields (members_view names.now.entries) old.now now) }
{
    let mut all = now;
    for (name, _) in names.iter() {
        set_again(alloc, &mut all, name, old)?;
    }
    Ok(all)
}

/// A copy of the fields of an object.
fn fields_at<T: Tree>(alloc: Global, t: &T, id: &NodeId) -> Result<Members, NoMemory>
    ensures { IfOk result (λ m. m ≡ fields_in (get (T.nodes t.now) id.now)) }
{
    match t.node(id) {
        Some(node) => match &node.kind {
            Kind::Object(fields) => fields.copy(alloc),
            _ => Ok(Members::new(alloc)),
        },
        None => Ok(Members::new(alloc)),
    }
}

/// The change of fields that leaves the others of the object as they are, where there is a change of fields.
fn turn_fit<T: Tree>(
    alloc: Global,
    t: &T,
    change: &Option<Turn>,
    names: &Members,
) -> Result<Option<Turn>, NoMemory>
    ensures { IfOk result (λ o. o ≡ fitted_in names.now (T.nodes t.now) change.now) }
{
    match change {
        Some(Turn::Fields(id, old)) => {
            let now = fields_at(alloc, t, id)?;
            let all = fields_fit(alloc, now, names.as_map(), old)?;
            Ok(Some(Turn::Fields(*id, all)))
        },
        _ => Ok(None),
    }
}

fn refit<T: Tree>(alloc: Global, t: &T, e: &mut Edits) -> Result<(), NoMemory>
    ensures ok { OnOk result (e.new ≡ fitted (T.nodes t.now) e.old) }
    ensures err { OnErr result (e.new ≡ e.old) }
{
    match turn_fit(alloc, t, &e.fields, &e.names)? {
        Some(fields) => {
            e.fields = Some(fields);
            Ok(())
        },
        None => Ok(()),
    }
}

/// Fits edits to a map that agrees with the one that the step or `forth` left on the cells of the operation: `back`
/// then goes wherever the object has the fields that it has here, and leaves those that the step didn't change as they
/// are here. It takes the memory for the fields that `back` is to put there; refused, it leaves the edits as they were.
pub fn fit<T: Tree>(alloc: Global, t: &T, e: &mut Edits) -> Result<(), NoMemory>
    ensures ok { OnOk result (e.new ≡ fitted (T.nodes t.now) e.old) }
    ensures err { OnErr result (e.new ≡ e.old) }
    ensures goes { OnOk result ((cs : List Cell) (u : Nodes) → GoesBack cs u e.old → Agrees u (T.nodes t.now) cs
        → GoesBack cs (T.nodes t.now) e.new) }
    ensures before { OnOk result ((cs : List Cell) (u : Nodes) → GoesBack cs u e.old → Agrees u (T.nodes t.now) cs
        → Agrees (before u e.old) (before (T.nodes t.now) e.new) cs) }
    ensures turned { OnOk result ((puts_in (backs e.new) ≡ puts_in (backs e.old))
        × (cuts_in (backs e.new) ≡ cuts_in (backs e.old))) }
    ensures count { OnOk result (nodes_of e.new ≡ nodes_of e.old) }
    ensures object { OnOk result (object_of e.new ≡ object_of e.old) }
{
    refit(alloc, t, e)
}
