//! Edits of objects and maps.
ghost use Rattle.std.specs.Prelude.{◌≡◌, [], ◌∷◌, true, None, IfOk, IfErr};
ghost use Rattle.room_json.specs.View.{json_of};
ghost use Rattle.room_nodes.specs.declared.nodes.Kind.TheVariants.{Object as AnObject};
ghost use Rattle.room_nodes.specs.Shape.{has_field};
ghost use Rattle.room_model.specs.Edits.{make, fields_most};
ghost use Rattle.room_effect.specs.Effect.{EffectOf};
ghost use Rattle.room_props.specs.Edits.{HaveRoom, IsFaultOf, IsMade, clocks_of, edit_of, is_prop};
ghost use Rattle.room_props.specs.Inits.{init_of};
ghost use Rattle.room_props.specs.Making.{ops_made, node_set, field_set, fields_set, name_removed};
ghost use Rattle.room_props.specs.Making.{set_on, update_on, remove_on};

use crate::clocks::finish;
use crate::creating::{Place, make_node};
use crate::editing::{Clocks, Edit, EditFault, Made};
use crate::live::Init;
use crate::weighing::{MAX_VALUE_DEPTH, exact_depth, sum, weighed};
use room_ids::NodeId;
use room_json::{Copied, Json, Members, NoMemory, Sound, Text};
use room_nodes::{Bodies, Body, Kind};
use room_tree::Tree;
use std::alloc::Global;

/// What no operation makes.
pub fn make_none(alloc: Global, c: &Clocks) -> Result<Made, EditFault>
    requires { HaveRoom c.now }
    ensures ok { IfOk result (IsMade (ops_made (clocks_of c.now) [])) }
    ensures err { IfErr result (IsFaultOf (ops_made (clocks_of c.now) [])) }
{
    finish(alloc, c, 0, Bodies::new(alloc))
}

/// What one operation makes that makes no node.
pub fn make_one(alloc: Global, c: &Clocks, body: Body) -> Result<Made, EditFault>
    requires { HaveRoom c.now }
    ensures ok { IfOk result (IsMade (ops_made (clocks_of c.now) (body ∷ []))) }
    ensures err { IfErr result (IsFaultOf (ops_made (clocks_of c.now) (body ∷ []))) }
{
    let mut bodies = Bodies::new(alloc);
    bodies.push(body)?;
    finish(alloc, c, 0, bodies)
}

/// Sets a field.
fn set_field(
    alloc: Global,
    c: &Clocks,
    id: &NodeId,
    key: &Text,
    value: &Json,
) -> Result<Made, EditFault>
    requires { HaveRoom c.now }
    ensures ok { IfOk result (IsMade (field_set (clocks_of c.now) id.now key.now (json_of value.now))) }
    ensures err { IfErr result (IsFaultOf (field_set (clocks_of c.now) id.now key.now (json_of value.now))) }
{
    let levels = exact_depth(value)?;
    if levels > MAX_VALUE_DEPTH {
        return Err(EditFault::ValueTooDeep(levels));
    }
    let mut fields = Members::new(alloc);
    drop(fields.set(key.copy(alloc)?, value.copy(alloc)?)?);
    make_one(alloc, c, Body::Update { node: *id, fields })
}

/// Sets a name to a node.
#[tactic(auto, using(crate::proofs::Checking::passed))]
fn set_node(
    alloc: Global,
    c: &Clocks,
    depth: u64,
    id: &NodeId,
    key: &Text,
    init: &Init,
) -> Result<Made, EditFault>
    requires { HaveRoom c.now }
    ensures ok { IfOk result (IsMade (node_set (clocks_of c.now) depth id.now key.now (init_of init.now))) }
    ensures err { IfErr result (IsFaultOf (node_set (clocks_of c.now) depth id.now key.now (init_of init.now))) }
{
    let nodes = weighed(sum(depth, 1)?, init)?;
    let place = Place {
        parent: *id,
        key: key.copy(alloc)?,
        replaces: None,
    };
    make_node(alloc, c, nodes, place, init)
}

fn set(
    alloc: Global,
    c: &Clocks,
    kind: &Kind,
    depth: u64,
    id: &NodeId,
    key: &Text,
    init: &Init,
) -> Result<Made, EditFault>
    requires { HaveRoom c.now }
    ensures ok { IfOk result (IsMade (set_on kind.now depth (clocks_of c.now) id.now key.now (init_of init.now))) }
    ensures err { IfErr result (IsFaultOf (set_on kind.now depth (clocks_of c.now) id.now key.now (init_of init.now))) }
{
    match kind {
        Kind::Object(_) => match init {
            Init::Plain(value) => set_field(alloc, c, id, key, value),
            Init::Object(_) => set_node(alloc, c, depth, id, key, init),
            Init::Map(_) => set_node(alloc, c, depth, id, key, init),
            Init::List(_) => set_node(alloc, c, depth, id, key, init),
        },
        Kind::Map => set_node(alloc, c, depth, id, key, init),
        Kind::List => Err(EditFault::WrongKind(*id)),
        Kind::Register(_) => Err(EditFault::WrongKind(*id)),
    }
}

fn fields_depth(fields: &Members) -> Result<u64, NoMemory>
    ensures { IfOk result (λ d. d ≡ fields_most fields.now) }
{
    let mut most = 0;
    for (_name, value) in fields.as_map().iter() {
        most = exact_depth(value)?.max(most);
    }
    Ok(most)
}

#[tactic(auto, using(crate::proofs::Checking::updates))]
fn update_fields(
    alloc: Global,
    c: &Clocks,
    id: &NodeId,
    fields: &Members,
) -> Result<Made, EditFault>
    requires { HaveRoom c.now }
    ensures ok { IfOk result (IsMade (fields_set (clocks_of c.now) id.now fields.now)) }
    ensures err { IfErr result (IsFaultOf (fields_set (clocks_of c.now) id.now fields.now)) }
{
    let levels = fields_depth(fields)?;
    if levels > MAX_VALUE_DEPTH {
        return Err(EditFault::ValueTooDeep(levels));
    }
    if fields.len() == 0 {
        return make_none(alloc, c);
    }
    let fields = fields.copy(alloc)?;
    make_one(alloc, c, Body::Update { node: *id, fields })
}

fn update(
    alloc: Global,
    c: &Clocks,
    kind: &Kind,
    depth: u64,
    id: &NodeId,
    fields: &Members,
) -> Result<Made, EditFault>
    requires { HaveRoom c.now }
    ensures ok { IfOk result (IsMade (update_on kind.now depth (clocks_of c.now) id.now fields.now)) }
    ensures err { IfErr result (IsFaultOf (update_on kind.now depth (clocks_of c.now) id.now fields.now)) }
{
    match kind {
        Kind::Object(_) => update_fields(alloc, c, id, fields),
        Kind::Map => Err(EditFault::WrongKind(*id)),
        Kind::List => Err(EditFault::WrongKind(*id)),
        Kind::Register(_) => Err(EditFault::WrongKind(*id)),
    }
}

#[tactic(auto, using(crate::proofs::Checking::lookup_find))]
fn has_name(fields: &Members, key: &Text) -> bool
    ensures { result ≡ has_field key.now (AnObject fields.now) }
{
    fields.find(key).is_some()
}

/// Removes a name of an object.
fn remove_name(
    alloc: Global,
    c: &Clocks,
    fields: &Members,
    id: &NodeId,
    key: &Text,
    child: Option<NodeId>,
) -> Result<Made, EditFault>
    requires { HaveRoom c.now }
    ensures ok { IfOk result (IsMade (name_removed (clocks_of c.now) fields.now id.now key.now child)) }
    ensures err { IfErr result (IsFaultOf (name_removed (clocks_of c.now) fields.now id.now key.now child)) }
{
    if has_name(fields, key) || child.is_some() {
        let key = key.copy(alloc)?;
        return make_one(alloc, c, Body::DeleteKey { node: *id, key });
    }
    make_none(alloc, c)
}

fn remove(
    alloc: Global,
    c: &Clocks,
    kind: &Kind,
    depth: u64,
    id: &NodeId,
    key: &Text,
    child: Option<NodeId>,
) -> Result<Made, EditFault>
    requires { HaveRoom c.now }
    ensures ok { IfOk result (IsMade (remove_on kind.now depth (clocks_of c.now) id.now key.now child)) }
    ensures err { IfErr result (IsFaultOf (remove_on kind.now depth (clocks_of c.now) id.now key.now child)) }
{
    match kind {
        Kind::Object(fields) => remove_name(alloc, c, fields, id, key, child),
        Kind::Map => match child {
            Some(node) => make_one(alloc, c, Body::Delete { node }),
            None => make_none(alloc, c),
        },
        Kind::List => Err(EditFault::WrongKind(*id)),
        Kind::Register(_) => Err(EditFault::WrongKind(*id)),
    }
}

/// The operations or the first refusal.
#[tactic(auto, using(crate::proofs::Checking::on_node))]
fn make_of<T: Tree>(alloc: Global, t: &T, c: &Clocks, e: &Edit) -> Result<Made, EditFault>
    requires room { HaveRoom c.now }
    requires prop { is_prop (edit_of e.now) ≡ true }
    ensures ok { IfOk result (IsMade (make (T.nodes t.now) (clocks_of c.now) (edit_of e.now))) }
    ensures err { IfErr result (IsFaultOf (make (T.nodes t.now) (clocks_of c.now) (edit_of e.now))) }
{
    let Some(there) = t.node(e.target()) else {
        return Err(EditFault::NoNode(*e.target()));
    };
    match e {
        Edit::Set { node, key, init } => {
            set(alloc, c, &there.kind, there.depth, node, key, init)
        },
        Edit::Update { node, fields } => {
            update(alloc, c, &there.kind, there.depth, node, fields)
        },
        Edit::Remove { node, key } => {
            let child = t.child_at(node, key);
            remove(alloc, c, &there.kind, there.depth, node, key, child)
        },
        _ => unreachable!(),
    }
}

/// The operations that an edit of an object or a map makes on a tree, and the next numbers; or the first reason
/// against it.
///
/// A set copies what it sets; a removal looks the name up; an update copies its fields.
pub fn make_prop<T: Tree>(alloc: Global, t: &T, c: &Clocks, e: &Edit) -> Result<Made, EditFault>
    requires room { HaveRoom c.now }
    requires prop { is_prop (edit_of e.now) ≡ true }
    ensures ok { IfOk result (IsMade (make (T.nodes t.now) (clocks_of c.now) (edit_of e.now))) }
    ensures err { IfErr result (IsFaultOf (make (T.nodes t.now) (clocks_of c.now) (edit_of e.now))) }
    ensures effect { IfOk result (λ m. EffectOf (T.nodes t.now) (clocks_of c.now) (edit_of e.now) m.ops) }
{
    e.sound();
    make_of(alloc, t, c, e)
}
