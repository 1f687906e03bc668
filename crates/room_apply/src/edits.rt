//! The edits of a step, and the way back and forth.
ghost use Rattle.std.specs.Prelude.{◌≡◌, ◌≤◌, ◌+◌, ℕ, List};
ghost use Rattle.std.specs.FinMap.{len};
ghost use Rattle.room_nodes.specs.Cells.{Agrees};
ghost use Rattle.room_nodes.specs.Shape.{Nodes};
ghost use Rattle.room_nodes.specs.declared.cells.Cell.{Cell};
ghost use Rattle.room_apply.specs.Edits.{places_all, puts_in, cuts_in};
ghost use Rattle.room_apply.specs.Ways.{CanGoBack, CanGoForth, GoesBack, GoesForth, Meets, IsWithCells};
ghost use Rattle.room_apply.specs.Ways.{backs, forths, before, after, gone_back, gone_forth, node_count, nodes_of};
ghost use Rattle.room_apply.specs.Ways.{object_of};

use crate::turning::{turn_all, turn_one};
use room_json::Members;
use room_nodes::Turn;
use room_tree::Tree;
use std::marker::Model;

/// What takes a step back, and makes it again: the nodes that the step removed, the fields of the object whose fields
/// it changes, the node or the key that it sets, and the names of the fields. It has the memory for both ways.
#[derive(Drop)]
pub struct Edits {
    pub(crate) done: Vec<Turn>,
    pub(crate) undone: Vec<Turn>,
    pub(crate) fields: Option<Turn>,
    pub(crate) last: Option<Turn>,
    pub(crate) names: Members,
}

impl Model for Edits {
    ghost use Rattle.std.specs.Prelude.{◌≤◌, ◌+◌, vec_len, vec_capacity};
    ghost use Rattle.room_apply.specs.Ways.{Way};
    ghost use Rattle.std.specs.Coded.{codes};
    ghost use Rattle.room_json.specs.Codes.{coded_list_of_fields};
    ghost use Rattle.room_nodes.specs.contracts.turns.Turn as turn;

    ghost Value = { Way };

    ghost coded = { Prim.hlevel (codes, coded_list_of_fields, turn.the_row.coded) };

    ghost view = { λ e. record {
      done = e.done.items;
      undone = e.undone.items;
      fields = e.fields;
      last = e.last;
      names =
          e.names;
    } };

    ghost invariant = { λ e. (vec_len e.done + vec_len e.undone ≤ vec_capacity e.done)
        × (vec_len e.done + vec_len e.undone ≤ vec_capacity e.undone) };
}

/// How many nodes a change puts or takes out.
pub(crate) fn count_of(change: &Option<Turn>) -> u64
    ensures { result ≡ node_count change.now }
{
    match change {
        Some(Turn::Put(..)) => 1,
        Some(Turn::Cut(_)) => 1,
        _ => 0,
    }
}

impl Edits {
    /// The number of nodes that the step removed plus the number that it put.
    pub fn nodes(&self) -> u64
        ensures { result ≡ nodes_of self.now }
    {
        self.done.len() as u64 + self.undone.len() as u64 + count_of(&self.last)
    }
}

fn go_back<T: Tree>(t: &mut T, e: &mut Edits)
    requires { CanGoBack (T.nodes t.old) (T.spare t.old) e.old }
    ensures nodes { T.nodes t.new ≡ before (T.nodes t.old) e.old }
    ensures spare { T.spare t.new ≡ places_all (T.spare t.old) (backs e.old) }
    ensures edits { e.new ≡ gone_back (T.nodes t.old) e.old }
{
    turn_one(t, &mut e.last);
    turn_one(t, &mut e.fields);
    turn_all(t, &mut e.done, &mut e.undone);
}

fn go_forth<T: Tree>(t: &mut T, e: &mut Edits)
    requires { CanGoForth (T.nodes t.old) (T.spare t.old) e.old }
    ensures nodes { T.nodes t.new ≡ after (T.nodes t.old) e.old }
    ensures spare { T.spare t.new ≡ places_all (T.spare t.old) (forths e.old) }
    ensures edits { e.new ≡ gone_forth (T.nodes t.old) e.old }
{
    turn_all(t, &mut e.undone, &mut e.done);
    turn_one(t, &mut e.fields);
    turn_one(t, &mut e.last);
}

/// Takes a step back, on any map that agrees with the one that the step or `forth` left on the cells of the operation,
/// and has the fields of the object whose fields the step changed as they were left then, or as the last `fit` met
/// them. It gives the map that is on these cells the one before the step, and elsewhere as it was; and keeps the sum of
/// `count` and `spare`. It takes no memory.
pub fn back<T: Tree>(t: &mut T, e: &mut Edits)
    requires { CanGoBack (T.nodes t.old) (T.spare t.old) e.old }
    ensures nodes { T.nodes t.new ≡ before (T.nodes t.old) e.old }
    ensures cells { (cs : List Cell) (u : Nodes) → GoesBack cs u e.old → Meets cs u (T.nodes t.old) e.old
        → IsWithCells cs (before u e.old) (T.nodes t.old) (T.nodes t.new) }
    ensures goes { (cs : List Cell) (u : Nodes) → GoesBack cs u e.old → Meets cs u (T.nodes t.old) e.old
        → GoesForth cs (T.nodes t.new) e.new }
    ensures can { CanGoForth (T.nodes t.new) (T.spare t.new) e.new }
    ensures again { after (T.nodes t.new) e.new ≡ T.nodes t.old }
    ensures sum { len (T.nodes t.new) + T.spare t.new ≡ len (T.nodes t.old) + T.spare t.old }
    ensures turned { (puts_in (forths e.new) ≡ cuts_in (backs e.old))
        × (cuts_in (forths e.new) ≡ puts_in (backs e.old)) }
    ensures count { nodes_of e.new ≡ nodes_of e.old }
    ensures object { object_of e.new ≡ object_of e.old }
{
    go_back(t, e);
}

/// Makes a step again, on any map that agrees with the one that `back` left on the cells of the operation, and has the
/// fields of the object whose fields the step changes as `back` left them. It gives the map that is on these cells the
/// one after the step, and elsewhere as it was; and keeps the sum of `count` and `spare`. It takes no memory.
pub fn forth<T: Tree>(t: &mut T, e: &mut Edits)
    requires { CanGoForth (T.nodes t.old) (T.spare t.old) e.old }
    ensures nodes { T.nodes t.new ≡ after (T.nodes t.old) e.old }
    ensures cells { (cs : List Cell) (u : Nodes) → GoesForth cs u e.old → Meets cs u (T.nodes t.old) e.old
        → IsWithCells cs (after u e.old) (T.nodes t.old) (T.nodes t.new) }
    ensures goes { (cs : List Cell) (u : Nodes) → GoesForth cs u e.old → Meets cs u (T.nodes t.old) e.old
        → GoesBack cs (T.nodes t.new) e.new }
    ensures can { CanGoBack (T.nodes t.new) (T.spare t.new) e.new }
    ensures again { before (T.nodes t.new) e.new ≡ T.nodes t.old }
    ensures sum { len (T.nodes t.new) + T.spare t.new ≡ len (T.nodes t.old) + T.spare t.old }
    ensures turned { (puts_in (backs e.new) ≡ cuts_in (forths e.old))
        × (cuts_in (backs e.new) ≡ puts_in (forths e.old)) }
    ensures count { nodes_of e.new ≡ nodes_of e.old }
    ensures object { object_of e.new ≡ object_of e.old }
{
    go_forth(t, e);
}
