//! The operations that make the nodes of a live value.
ghost use Rattle.std.specs.Prelude.{◌≡◌, ◌+◌, ◌≤◌, ◌++◌, [], ◌∷◌, None, IfOk, OnOk, IfErr};
ghost use Rattle.room_ids.specs.Position.{first as first_of};
ghost use Rattle.room_model.specs.Edits.{too_long};
ghost use Rattle.room_model.specs.Init.{made_id, plain_fields as plain_fields_of};
ghost use Rattle.room_model.specs.Init.{nodes_in, live_nodes, part_nodes, init_nodes};
ghost use Rattle.room_model.specs.Init.{positions_in, parts_positions, item_positions};
ghost use Rattle.room_props.specs.Edits.{HaveRoom, IsFaultOf, IsMade, clocks_of};
ghost use Rattle.room_props.specs.Inits.{init_of, parts_in, items_in};
ghost use Rattle.room_props.specs.Creating.{create_at, with_node, with_live, with_parts, with_items, placed_at};

use crate::clocks::{finish, spent, stamp};
use crate::editing::{Clocks, EditFault, Made};
use crate::live::Init;
use crate::placing::{following, long_in};
use crate::weighing::is_plain;
use room_ids::{NodeId, PosFault};
use room_json::{Copied, Members, NoMemory, Text};
use room_nodes::{Bodies, Body, Kind};
use std::alloc::Global;
use std::collections::BTreeMap;

/// Where a new node stands, and the node whose place it takes.
#[derive(Drop)]
pub struct Place {
    pub parent: NodeId,
    pub key: Text,
    pub replaces: Option<NodeId>,
}

/// Operations that make an actor's nodes, and the number of the next one.
#[derive(Drop)]
struct Maker {
    actor: u32,
    clock: u64,
    bodies: Bodies,
}

fn next_id(maker: &Maker) -> NodeId
    requires { maker.now.clock ≤ 9007199254740991 }
    ensures { result ≡ made_id maker.now.actor maker.now.clock }
{
    NodeId::Made(stamp(maker.actor, maker.clock))
}

fn put(maker: &mut Maker, place: Place, kind: Kind) -> Result<(), NoMemory>
    requires { maker.old.clock ≤ 9007199254740991 }
    ensures actor { OnOk result (maker.new.actor ≡ maker.old.actor) }
    ensures clock { OnOk result (maker.new.clock ≡ maker.old.clock + 1) }
    ensures bodies { OnOk result (maker.new.bodies ≡ maker.old.bodies ++ create_at maker.old place kind ∷ []) }
{
    let node = next_id(maker);
    let Place {
        parent,
        key,
        replaces,
    } = place;
    maker.bodies.push(Body::Create {
        node,
        parent,
        key,
        replaces,
        kind,
    })?;
    maker.clock += 1;
    Ok(())
}

/// The plain members of a live object.
#[tactic(auto, using(crate::proofs::Making::fields_end))]
fn plain_fields(alloc: Global, parts: &BTreeMap<Text, Init>) -> Result<Members, NoMemory>
    ensures { IfOk result (λ m. m ≡ plain_fields_of (parts_in parts.now.entries)) }
{
    let mut fields = Members::new(alloc);
    for (name, part) in parts.iter() {
        if let Init::Plain(value) = part {
            let value = value.copy(alloc)?;
            drop(fields.set(name.copy(alloc)?, value)?);
        }
    }
    Ok(fields)
}

#[cycle(create)]
#[tactic(auto, using(crate::proofs::Making::made))]
fn create(alloc: Global, maker: &mut Maker, place: Place, init: &Init) -> Result<(), NoMemory>
    requires clocks { maker.old.clock + nodes_in (init_of init.now) ≤ 9007199254740992 }
    requires short { too_long (positions_in (init_of init.now)) ≡ None }
    ensures actor { OnOk result (maker.new.actor ≡ maker.old.actor) }
    ensures clock { OnOk result (maker.new.clock ≡ maker.old.clock + nodes_in (init_of init.now)) }
    ensures bodies { OnOk result (maker.new.bodies ≡ with_node maker.old place (init_of init.now)) }
{
    let node = next_id(maker);
    match init {
        Init::Plain(value) => put(maker, place, Kind::Register(value.copy(alloc)?)),
        Init::Object(parts) => {
            let fields = plain_fields(alloc, &parts.entries)?;
            put(maker, place, Kind::Object(fields))?;
            create_live(alloc, maker, &node, &parts.entries)
        }
        Init::Map(parts) => {
            put(maker, place, Kind::Map)?;
            create_parts(alloc, maker, &node, &parts.entries)
        }
        Init::List(items) => {
            put(maker, place, Kind::List)?;
            create_items(alloc, maker, &node, items.items.as_slice())
        }
    }
}

/// The live members of an object.
#[cycle(create)]
fn create_live(
    alloc: Global,
    maker: &mut Maker,
    parent: &NodeId,
    parts: &BTreeMap<Text, Init>,
) -> Result<(), NoMemory>
    requires clocks { maker.old.clock + live_nodes (parts_in parts.now.entries) ≤ 9007199254740992 }
    requires short { too_long (parts_positions (parts_in parts.now.entries)) ≡ None }
    ensures actor { OnOk result (maker.new.actor ≡ maker.old.actor) }
    ensures clock { OnOk result (maker.new.clock ≡ maker.old.clock + live_nodes (parts_in parts.now.entries)) }
    ensures bodies { OnOk result (maker.new.bodies ≡ with_live maker.old parent.now (parts_in parts.now.entries)) }
{
    for (name, part) in parts.iter() {
        if is_plain(part) {
            continue;
        }
        let key = name.copy(alloc)?;
        let place = Place {
            parent: *parent,
            key,
            replaces: None,
        };
        create(alloc, maker, place, part)?;
    }
    Ok(())
}

/// The members of a map.
#[cycle(create)]
fn create_parts(
    alloc: Global,
    maker: &mut Maker,
    parent: &NodeId,
    parts: &BTreeMap<Text, Init>,
) -> Result<(), NoMemory>
    requires clocks { maker.old.clock + part_nodes (parts_in parts.now.entries) ≤ 9007199254740992 }
    requires short { too_long (parts_positions (parts_in parts.now.entries)) ≡ None }
    ensures actor { OnOk result (maker.new.actor ≡ maker.old.actor) }
    ensures clock { OnOk result (maker.new.clock ≡ maker.old.clock + part_nodes (parts_in parts.now.entries)) }
    ensures bodies { OnOk result (maker.new.bodies ≡ with_parts maker.old parent.now (parts_in parts.now.entries)) }
{
    for (name, part) in parts.iter() {
        let key = name.copy(alloc)?;
        let place = Place {
            parent: *parent,
            key,
            replaces: None,
        };
        create(alloc, maker, place, part)?;
    }
    Ok(())
}

/// The items of a list.
#[cycle(create)]
fn create_items(
    alloc: Global,
    maker: &mut Maker,
    parent: &NodeId,
    items: &[Init],
) -> Result<(), NoMemory>
    requires clocks { maker.old.clock + init_nodes (items_in items.now) ≤ 9007199254740992 }
    requires short { too_long (item_positions first_of (items_in items.now)) ≡ None }
    ensures actor { OnOk result (maker.new.actor ≡ maker.old.actor) }
    ensures clock { OnOk result (maker.new.clock ≡ maker.old.clock + init_nodes (items_in items.now)) }
    ensures bodies { OnOk result (maker.new.bodies ≡ with_items maker.old parent.now (items_in items.now)) }
{
    let mut last = None;
    for item in items {
        let position = match following(alloc, &last) {
            Ok(position) => position,
            Err(PosFault::TooLong(_)) => unreachable!(),
            Err(PosFault::Memory) => return Err(NoMemory),
        };
        let key = position.text().copy(alloc)?;
        let place = Place {
            parent: *parent,
            key,
            replaces: None,
        };
        create(alloc, maker, place, item)?;
        last = Some(position);
    }
    Ok(())
}

/// What a live value makes as a node at a place, or the first reason against it: a position that is too long, numbers
/// that are spent. `nodes` is how many nodes it makes.
///
/// Copies the value once, and makes the positions of its lists twice.
pub fn make_node(
    alloc: Global,
    c: &Clocks,
    nodes: u64,
    place: Place,
    init: &Init,
) -> Result<Made, EditFault>
    requires room { HaveRoom c.now }
    requires nodes { nodes ≡ nodes_in (init_of init.now) }
    ensures ok { IfOk result (IsMade (placed_at (clocks_of c.now) place (init_of init.now))) }
    ensures err { IfErr result (IsFaultOf (placed_at (clocks_of c.now) place (init_of init.now))) }
{
    if let Some(bytes) = long_in(alloc, init)? {
        return Err(EditFault::PosTooLong(bytes));
    }
    if let Some(last) = spent(c.node, nodes)? {
        return Err(EditFault::ClocksSpent(last));
    }
    let mut maker = Maker {
        actor: c.actor,
        clock: c.node,
        bodies: Bodies::new(alloc),
    };
    create(alloc, &mut maker, place, init)?;
    let Maker {
        actor: _,
        clock: _,
        bodies,
    } = maker;
    finish(alloc, c, nodes, bodies)
}
