//! Entries of the history.
ghost use Rattle.std.specs.Prelude.{◌≡◌, ◌++◌, ◌∷◌, [], IfOk, OnOk};
ghost use Rattle.std.specs.Cmp.Lexicographic.{slice_cmp};
ghost use Rattle.std.specs.FinMap.{find};
ghost use Rattle.std.specs.Ordering.{nat_cmp};
ghost use Rattle.room_json.specs.Value.{merged};
ghost use Rattle.room_json.specs.View.{json_of, members_view};
ghost use Rattle.room_nodes.specs.declared.nodes.Change.TheVariants.{Presence as PresenceChange};
ghost use Rattle.room_model.specs.Calls.{entry_bodies, entry_names, entry_presence, entry_reversal};
ghost use Rattle.room_model.specs.Presence.{back_of, or_null};
ghost use Rattle.room_editor.specs.Going.{change_bodies, change_back, change_tree, change_presence, change_names};

use crate::gathering::put_before;
use crate::names::{copies, with_names};
use room_apply::step;
use room_back::reverse;
use room_ids::{OpId, Stamp};
use room_json::{Copied, Json, Members, Names, NoMemory, Seq, Text, merge};
use room_nodes::{Bodies, Body, Change, Changes, Op};
use room_tree::Tree;
use std::alloc::Global;
use std::collections::BTreeMap;

fn push_body(alloc: Global, bodies: &mut Bodies, change: &Change) -> Result<(), NoMemory>
    ensures { OnOk result (bodies.new ≡ bodies.old ++ change_bodies change.now) }
{
    match change {
        Change::Op(body) => bodies.push(body.copy(alloc)?),
        Change::Presence(_) => Ok(()),
    }
}

/// The operations of an entry.
pub(crate) fn bodies(alloc: Global, entry: &[Change]) -> Result<Bodies, NoMemory>
    ensures { IfOk result (λ bs. bs ≡ entry_bodies entry.now) }
{
    let mut bodies = Bodies::new(alloc);
    for change in entry {
        push_body(alloc, &mut bodies, change)?;
    }
    Ok(bodies)
}

fn merge_change(alloc: Global, me: &mut Members, change: &Change) -> Result<(), NoMemory>
    ensures { OnOk result (me.new ≡ change_presence me.old change.now) }
{
    match change {
        Change::Op(_) => Ok(()),
        Change::Presence(patch) => merge(alloc, me, patch),
    }
}

/// The presence after an entry's patches.
pub(crate) fn presence_after(
    alloc: Global,
    me: &Members,
    entry: &[Change],
) -> Result<Members, NoMemory>
    ensures { IfOk result (λ m. m ≡ entry_presence me.now entry.now) }
{
    let mut after = me.copy(alloc)?;
    for change in entry {
        merge_change(alloc, &mut after, change)?;
    }
    Ok(after)
}

fn names_with(alloc: Global, names: Names, change: &Change) -> Result<Names, NoMemory>
    ensures { IfOk result (λ ns. ns ≡ change_names names change.now) }
{
    match change {
        Change::Op(_) => Ok(names),
        Change::Presence(patch) => with_names(alloc, names.as_slice(), patch),
    }
}

/// Names, and those of an entry's patches.
pub(crate) fn names_after(
    alloc: Global,
    names: &[Text],
    entry: &[Change],
) -> Result<Names, NoMemory>
    ensures { IfOk result (λ ns. ns ≡ entry_names names.now entry.now) }
{
    let mut after = copies(alloc, names)?;
    for change in entry {
        after = names_with(alloc, after, change)?;
    }
    Ok(after)
}

/// An operation that does this; its id tells nothing.
fn as_op(alloc: Global, body: &Body) -> Result<Op, NoMemory>
    ensures { IfOk result (λ o. o.body ≡ body.now) }
{
    match Stamp::new(0, 0) {
        Some(stamp) => Ok(Op {
            id: OpId(stamp),
            body: body.copy(alloc)?,
        }),
        None => Err(NoMemory),
    }
}

fn old_value(alloc: Global, me: &Members, name: &Text) -> Result<Json, NoMemory>
    ensures { IfOk result (λ v. json_of v ≡ or_null (find (slice_cmp nat_cmp) name.now me.now)) }
{
    match me.find(name) {
        Some(value) => value.copy(alloc),
        None => Ok(Json::Null),
    }
}

fn old_values(
    alloc: Global,
    me: &Members,
    patch: &BTreeMap<Text, Json>,
) -> Result<Members, NoMemory>
    ensures { IfOk result (λ m. m ≡ merged [] (back_of me.now (members_view patch.now.entries))) }
{
    let mut old = Members::new(alloc);
    for (name, _value) in patch.iter() {
        let value = old_value(alloc, me, name)?;
        drop(old.set(name.copy(alloc)?, value)?);
    }
    Ok(old)
}

#[tactic(auto, using(crate::proofs::Ordered::back_merged))]
/// What takes a patch of the presence back: of each key the old value, null for one that wasn't there.
pub(crate) fn patch_back(alloc: Global, me: &Members, patch: &Members) -> Result<Changes, NoMemory>
    ensures { IfOk result (λ cs. cs ≡ PresenceChange (back_of me.now patch.now) ∷ []) }
{
    let mut changes = Changes::new(alloc);
    patch.len();
    let old = old_values(alloc, me, patch.as_map())?;
    changes.push(Change::Presence(old))?;
    Ok(changes)
}

/// Makes one change of an entry on the tree and the presence, and answers what takes it back.
fn turn<T: Tree>(
    alloc: Global,
    t: &mut T,
    me: &mut Members,
    change: &Change,
) -> Result<Changes, NoMemory>
    ensures back { IfOk result (λ cs. cs ≡ change_back (T.nodes t.old) me.old change.now) }
    ensures tree { OnOk result (T.nodes t.new ≡ change_tree (T.nodes t.old) change.now) }
    ensures me { OnOk result (me.new ≡ change_presence me.old change.now) }
{
    match change {
        Change::Op(body) => {
            let op = as_op(alloc, body)?;
            let back = reverse(alloc, t, &op)?;
            drop(step(alloc, t, &op)?);
            Ok(back)
        }
        Change::Presence(patch) => {
            let back = patch_back(alloc, me, patch)?;
            merge(alloc, me, patch)?;
            Ok(back)
        }
    }
}

/// What takes an entry back that is made on a tree and a presence. Uses up the tree.
pub(crate) fn reversal<T: Tree>(
    alloc: Global,
    t: T,
    me: &Members,
    entry: &[Change],
) -> Result<Changes, NoMemory>
    ensures { IfOk result (λ cs. cs ≡ entry_reversal (T.nodes t) me.now entry.now) }
{
    let mut t = t;
    let mut me = me.copy(alloc)?;
    let mut turned: Vec<Change> = Vec::new(alloc);
    for change in entry {
        let back = turn(alloc, &mut t, &mut me, change)?;
        put_before(&mut turned, back)?;
    }
    turned.reverse();
    Ok(Seq::from_vec(turned))
}
