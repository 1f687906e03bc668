//! Cases of `room_props`: the operations that edits make on the cases' tree.
ghost use Rattle.std.specs.Prelude.{IfOk, ◌≤◌};
ghost use Rattle.room_props.specs.Edits.{HaveRoom};

use room_case_text::{Broken, item, node, number_at, object_at, shown, text_at, value};
use room_json::{Copied, Items, Json, MAX_WHOLE, field};
use room_props::{Clocks, Edit, EditFault, Init, Inits, Made, Parts, make_prop};
use room_tree::Tree;
use room_wire::write_op;
use std::alloc::Global;

/// What comes of a case of edits: the numbers of the next node and operation, a node, and what the verb wants.
pub(crate) fn outcome<T: Tree>(
    alloc: Global,
    t: &T,
    verb: &str,
    rest: &str,
) -> Result<String, Broken> {
    let v = value(alloc, rest)?;
    let c = clocks(&v)?;
    match verb {
        "set" => set(alloc, t, &c, &v),
        "update" => update(alloc, t, &c, &v),
        "remove" => remove(alloc, t, &c, &v),
        _ => Err(Broken::Verb),
    }
}

/// The numbers of the next node and operation of the actor 1; `null` is the one behind the last.
fn clocks(v: &Json) -> Result<Clocks, Broken>
    ensures { IfOk result HaveRoom }
{
    Ok(Clocks {
        actor: 1,
        node: clock(v, 0)?,
        op: clock(v, 1)?,
    })
}

fn clock(v: &Json, at: u64) -> Result<u64, Broken>
    ensures { IfOk result (λ n. n ≤ 9007199254740992) }
{
    match item(v, at)? {
        Json::Null => Ok(MAX_WHOLE + 1),
        _ => Ok(number_at(v, at)?.min(MAX_WHOLE)),
    }
}

fn set<T: Tree>(alloc: Global, t: &T, c: &Clocks, v: &Json) -> Result<String, Broken>
    requires { HaveRoom c.now }
{
    let edit = Edit::Set {
        node: node(text_at(v, 2)?.as_str())?,
        key: text_at(v, 3)?.copy(alloc)?,
        init: init(alloc, item(v, 4)?)?.copy(alloc)?,
    };
    told(alloc, make_prop(alloc, t, c, &edit))
}

fn update<T: Tree>(alloc: Global, t: &T, c: &Clocks, v: &Json) -> Result<String, Broken>
    requires { HaveRoom c.now }
{
    let edit = Edit::Update {
        node: node(text_at(v, 2)?.as_str())?,
        fields: object_at(v, 3)?.copy(alloc)?,
    };
    told(alloc, make_prop(alloc, t, c, &edit))
}

fn remove<T: Tree>(alloc: Global, t: &T, c: &Clocks, v: &Json) -> Result<String, Broken>
    requires { HaveRoom c.now }
{
    let edit = Edit::Remove {
        node: node(text_at(v, 2)?.as_str())?,
        key: text_at(v, 3)?.copy(alloc)?,
    };
    told(alloc, make_prop(alloc, t, c, &edit))
}

/// The numbers that come next, and the operations as they are written; or why there are none.
fn told(alloc: Global, made: Result<Made, EditFault>) -> Result<String, Broken> {
    match made {
        Ok(made) => {
            let mut ops = Items::new(alloc);
            for op in made.ops.as_slice() {
                ops.push(write_op(alloc, op)?)?;
            }
            let text = shown(alloc, &Json::List(ops))?;
            Ok(format!(in alloc; "{} {} {text}", made.next.node, made.next.op)?)
        },
        Err(EditFault::Memory) => Err(Broken::Memory),
        Err(fault) => Ok(format!(in alloc; "{fault}")?),
    }
}

// What an edit puts in place: `{"plain":V}`, `{"list":[V,..]}`, `{"map":{..}}` or `{"object":{..}}`, whose members are
// plain, or lists and maps of plain values.

fn init(alloc: Global, v: &Json) -> Result<Init, Broken> {
    if let Some(members) = field(v, "object") {
        return Ok(Init::Object(parts(alloc, members)?));
    }
    if let Some(members) = field(v, "map") {
        return Ok(Init::Map(parts(alloc, members)?));
    }
    inner(alloc, v)
}

fn inner(alloc: Global, v: &Json) -> Result<Init, Broken> {
    if let Some(list) = field(v, "list") {
        return Ok(Init::List(inits(alloc, list)?));
    }
    if let Some(members) = field(v, "map") {
        return Ok(Init::Map(plain_parts(alloc, members)?));
    }
    match field(v, "plain") {
        Some(json) => Ok(Init::Plain(json.copy(alloc)?)),
        None => Err(Broken::Live),
    }
}

fn parts(alloc: Global, v: &Json) -> Result<Parts, Broken> {
    let mut parts = Parts::new(alloc);
    let Some(members) = v.as_object() else {
        return Err(Broken::Object);
    };
    for (name, part) in members.as_map().iter() {
        drop(parts.set(name.copy(alloc)?, inner(alloc, part)?)?);
    }
    Ok(parts)
}

fn plain_parts(alloc: Global, v: &Json) -> Result<Parts, Broken> {
    let mut parts = Parts::new(alloc);
    let Some(members) = v.as_object() else {
        return Err(Broken::Object);
    };
    for (name, part) in members.as_map().iter() {
        drop(parts.set(name.copy(alloc)?, Init::Plain(part.copy(alloc)?))?);
    }
    Ok(parts)
}

fn inits(alloc: Global, v: &Json) -> Result<Inits, Broken> {
    let mut all = Inits::new(alloc);
    let Some(list) = v.as_list() else {
        return Err(Broken::List);
    };
    for part in list.as_slice() {
        all.push(Init::Plain(part.copy(alloc)?))?;
    }
    Ok(all)
}
