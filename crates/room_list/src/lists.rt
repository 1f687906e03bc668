//! Edits of lists.
ghost use Rattle.std.specs.Prelude.{◌≡◌, true, false, IfOk, IfErr};
ghost use Rattle.std.specs.Option.{option_copied};
ghost use Rattle.room_nodes.specs.Shape.{children, is_list as is_list_of};
ghost use Rattle.room_model.specs.Edits.{make};
ghost use Rattle.room_props.specs.Edits.{HaveRoom, IsFaultOf, IsMade, clocks_of, edit_of, is_prop};
ghost use Rattle.room_props.specs.Inits.{init_of};
ghost use Rattle.room_effect.specs.Effect.{EffectOf};
ghost use Rattle.room_effect.specs.Beside.{AreNeighbours, key_between as key_between_of};
ghost use Rattle.room_list.specs.Listing.{item_made, item_put, item_moved};
ghost use Rattle.room_list.specs.Listing.{inserted, put_at, moved, taken, cleared};
ghost use Rattle.room_list.specs.Listing.{looks, index_of, gap_of, listed};

use crate::keys::key_between;
use crate::walking::{END, Found, deletes, look, more};
use room_ids::NodeId;
use room_json::{Copied, NoMemory, Sound, Text};
use room_nodes::{Body, Kind};
use room_props::{
    Clocks, Edit, EditFault, Init, Made, Place, finish, make_node, make_none, make_one, weighed,
};
use room_tree::Tree;
use std::alloc::Global;

/// Puts a new item in between two positions.
#[tactic(auto, using(crate::proofs::Checking::checks))]
fn add(
    alloc: Global,
    c: &Clocks,
    depth: u64,
    list: &NodeId,
    left: Option<&Text>,
    right: Option<&Text>,
    init: &Init,
) -> Result<Made, EditFault>
    requires room { HaveRoom c.now }
    requires beside { AreNeighbours (option_copied left) (option_copied right) }
    ensures ok { IfOk result (IsMade (item_made (clocks_of c.now) depth list.now
        (key_between_of (option_copied left.entry) (option_copied right.entry)) (init_of init.now))) }
    ensures err { IfErr result (IsFaultOf (item_made (clocks_of c.now) depth list.now
        (key_between_of (option_copied left.entry) (option_copied right.entry)) (init_of init.now))) }
{
    let nodes = weighed(more(depth)?, init)?;
    let key = key_between(alloc, left, right)?;
    let place = Place {
        parent: *list,
        key,
        replaces: None,
    };
    make_node(alloc, c, nodes, place, init)
}

fn insert(
    alloc: Global,
    c: &Clocks,
    depth: u64,
    list: &NodeId,
    index: u64,
    init: &Init,
    found: &Found,
) -> Result<Made, EditFault>
    requires room { HaveRoom c.now }
    requires beside { AreNeighbours (option_copied found.now.left) (option_copied found.now.right) }
    ensures ok { IfOk result (IsMade (inserted (clocks_of c.now) depth list.now index (init_of init.now) found.now.count
        (option_copied found.now.left) (option_copied found.now.right))) }
    ensures err { IfErr result (IsFaultOf (inserted (clocks_of c.now) depth list.now index (init_of init.now)
        found.now.count (option_copied found.now.left) (option_copied found.now.right))) }
{
    if index > found.count {
        return Err(EditFault::BadIndex(index, found.count));
    }
    add(alloc, c, depth, list, found.left, found.right, init)
}

/// Puts a new item in the place of another.
#[tactic(auto, using(crate::proofs::Checking::passed))]
fn replace(
    alloc: Global,
    c: &Clocks,
    depth: u64,
    list: &NodeId,
    key: &Text,
    old: NodeId,
    init: &Init,
) -> Result<Made, EditFault>
    requires { HaveRoom c.now }
    ensures ok { IfOk result (IsMade (item_put (clocks_of c.now) depth list.now key.now old (init_of init.now))) }
    ensures err { IfErr result (IsFaultOf (item_put (clocks_of c.now) depth list.now key.now old (init_of init.now))) }
{
    let nodes = weighed(more(depth)?, init)?;
    let place = Place {
        parent: *list,
        key: key.copy(alloc)?,
        replaces: Some(old),
    };
    make_node(alloc, c, nodes, place, init)
}

fn put(
    alloc: Global,
    c: &Clocks,
    depth: u64,
    list: &NodeId,
    index: u64,
    init: &Init,
    found: &Found,
) -> Result<Made, EditFault>
    requires { HaveRoom c.now }
    ensures ok { IfOk result (IsMade (put_at (clocks_of c.now) depth list.now index (init_of init.now) found.now.count
        found.now.item (option_copied found.now.right))) }
    ensures err { IfErr result (IsFaultOf (put_at (clocks_of c.now) depth list.now index (init_of init.now)
        found.now.count found.now.item (option_copied found.now.right))) }
{
    let count = found.count;
    let item = found.item;
    let right = found.right;
    let Some(old) = item else {
        return Err(EditFault::BadIndex(index, count));
    };
    let Some(key) = right else {
        return Err(EditFault::BadIndex(index, count));
    };
    replace(alloc, c, depth, list, key, old, init)
}

/// Gives an item the position between two others.
#[tactic(auto, using(crate::proofs::Checking::short))]
fn shift(
    alloc: Global,
    c: &Clocks,
    item: NodeId,
    left: Option<&Text>,
    right: Option<&Text>,
) -> Result<Made, EditFault>
    requires room { HaveRoom c.now }
    requires beside { AreNeighbours (option_copied left) (option_copied right) }
    ensures ok { IfOk result (IsMade (item_moved (clocks_of c.now) item
        (key_between_of (option_copied left.entry) (option_copied right.entry)))) }
    ensures err { IfErr result (IsFaultOf (item_moved (clocks_of c.now) item
        (key_between_of (option_copied left.entry) (option_copied right.entry)))) }
{
    let key = key_between(alloc, left, right)?;
    make_one(alloc, c, Body::SetKey { node: item, key })
}

fn move_item(
    alloc: Global,
    c: &Clocks,
    from: u64,
    to: u64,
    found: &Found,
) -> Result<Made, EditFault>
    requires room { HaveRoom c.now }
    requires beside { AreNeighbours (option_copied found.now.left) (option_copied found.now.right) }
    ensures ok { IfOk result (IsMade (moved (clocks_of c.now) from to found.now.count found.now.item
        (key_between_of (option_copied found.now.left) (option_copied found.now.right)))) }
    ensures err { IfErr result (IsFaultOf (moved (clocks_of c.now) from to found.now.count found.now.item
        (key_between_of (option_copied found.now.left) (option_copied found.now.right)))) }
{
    let count = found.count;
    let item = found.item;
    let Some(item) = item else {
        return Err(EditFault::BadIndex(from, count));
    };
    if to >= count {
        return Err(EditFault::BadIndex(to, count));
    }
    if from == to {
        return make_none(alloc, c);
    }
    shift(alloc, c, item, found.left, found.right)
}

fn take(alloc: Global, c: &Clocks, index: u64, found: &Found) -> Result<Made, EditFault>
    requires { HaveRoom c.now }
    ensures ok { IfOk result (IsMade (taken (clocks_of c.now) index found.now.count found.now.item)) }
    ensures err { IfErr result (IsFaultOf (taken (clocks_of c.now) index found.now.count found.now.item)) }
{
    let count = found.count;
    let item = found.item;
    match item {
        Some(node) => make_one(alloc, c, Body::Delete { node }),
        None => Err(EditFault::BadIndex(index, count)),
    }
}

/// The item that an edit names.
fn index(e: &Edit) -> u64
    ensures { result ≡ index_of (edit_of e.now) }
{
    match e {
        Edit::Insert {
            list: _,
            index,
            init: _,
        } => *index,
        Edit::Put {
            list: _,
            index,
            init: _,
        } => *index,
        Edit::Move {
            list: _,
            from,
            to: _,
        } => *from,
        Edit::Take { list: _, index } => *index,
        _ => END,
    }
}

/// The gap into which an edit puts an item. One that moves to a later place goes behind the item that is there, and
/// else before it.
fn gap(e: &Edit) -> u64
    ensures { result ≡ gap_of (edit_of e.now) }
{
    match e {
        Edit::Move { list: _, from, to } => {
            if *from < *to {
                to.saturating_add(1)
            } else {
                *to
            }
        }
        _ => index(e),
    }
}

/// What an edit makes, by what a walk has found at its item and its gap.
fn make_found(
    alloc: Global,
    c: &Clocks,
    depth: u64,
    e: &Edit,
    found: &Found,
) -> Result<Made, EditFault>
    requires room { HaveRoom c.now }
    requires beside { AreNeighbours (option_copied found.now.left) (option_copied found.now.right) }
    requires looks { looks (edit_of e.now) ≡ true }
    ensures ok { IfOk result (IsMade (listed (clocks_of c.now) depth (edit_of e.now) found.now.count found.now.item
        (option_copied found.now.left) (option_copied found.now.right))) }
    ensures err { IfErr result (IsFaultOf (listed (clocks_of c.now) depth (edit_of e.now) found.now.count
        found.now.item (option_copied found.now.left) (option_copied found.now.right))) }
{
    match e {
        Edit::Push { list, init } => add(alloc, c, depth, list, found.left, found.right, init),
        Edit::Insert { list, index, init } => insert(alloc, c, depth, list, *index, init, found),
        Edit::Put { list, index, init } => put(alloc, c, depth, list, *index, init, found),
        Edit::Move { list: _, from, to } => move_item(alloc, c, *from, *to, found),
        Edit::Take { list: _, index } => take(alloc, c, *index, found),
        _ => unreachable!(),
    }
}

fn clear<T: Tree>(alloc: Global, t: &T, c: &Clocks, list: &NodeId) -> Result<Made, EditFault>
    requires { HaveRoom c.now }
    ensures ok { IfOk result (IsMade (cleared (clocks_of c.now) (children (T.nodes t.now) list.now))) }
    ensures err { IfErr result (IsFaultOf (cleared (clocks_of c.now) (children (T.nodes t.now) list.now))) }
{
    let bodies = deletes(alloc, t, list)?;
    finish(alloc, c, 0, bodies)
}

fn is_list(kind: &Kind) -> bool
    ensures { result ≡ is_list_of kind.now }
{
    match kind {
        Kind::List => true,
        _ => false,
    }
}

/// The operations or the first refusal, by a walk over the list.
fn make_of<T: Tree>(alloc: Global, t: &T, c: &Clocks, e: &Edit) -> Result<Made, EditFault>
    requires room { HaveRoom c.now }
    requires list { is_prop (edit_of e.now) ≡ false }
    ensures ok { IfOk result (IsMade (make (T.nodes t.now) (clocks_of c.now) (edit_of e.now))) }
    ensures err { IfErr result (IsFaultOf (make (T.nodes t.now) (clocks_of c.now) (edit_of e.now))) }
{
    let Some(there) = t.node(e.target()) else {
        return Err(EditFault::NoNode(*e.target()));
    };
    if !is_list(&there.kind) {
        return Err(EditFault::WrongKind(*e.target()));
    }
    if let Edit::Clear { list } = e {
        return clear(alloc, t, c, list);
    }
    match look(t, e.target(), index(e), gap(e)) {
        Ok(found) => make_found(alloc, c, there.depth, e, &found),
        Err(NoMemory) => Err(EditFault::Memory),
    }
}

/// The operations that an edit of a list makes on a tree, and the next numbers; or the first reason against it.
///
/// Each edit walks the list once and keeps two of its keys at most, uncopied. A push, an insert and a move copy the
/// positions of the neighbours to make the new one; a put copies the position that it takes over. What is put in is
/// walked three times and copied once.
pub fn make_list<T: Tree>(alloc: Global, t: &T, c: &Clocks, e: &Edit) -> Result<Made, EditFault>
    requires room { HaveRoom c.now }
    requires list { is_prop (edit_of e.now) ≡ false }
    ensures ok { IfOk result (IsMade (make (T.nodes t.now) (clocks_of c.now) (edit_of e.now))) }
    ensures err { IfErr result (IsFaultOf (make (T.nodes t.now) (clocks_of c.now) (edit_of e.now))) }
    ensures effect { IfOk result (λ m. EffectOf (T.nodes t.now) (clocks_of c.now) (edit_of e.now) m.ops) }
{
    e.sound();
    make_of(alloc, t, c, e)
}
