//! How many nodes a live value makes, and how deep it is.
ghost use Rattle.std.specs.Prelude.{◌≡◌, ◌+◌, ◌≤◌, max, suc, IfOk, IfErr, OnOk};
ghost use Rattle.room_json.specs.Value.{depth as depth_of};
ghost use Rattle.room_json.specs.View.{json_of};
ghost use Rattle.room_model.specs.Init.{is_plain as is_plain_of, plain_depth, parts_plain_depth, inits_plain_depth};
ghost use Rattle.room_model.specs.Init.{nodes_in, live_nodes, part_nodes, init_nodes};
ghost use Rattle.room_model.specs.Init.{node_depth, live_depth, parts_depth, inits_depth};
ghost use Rattle.room_props.specs.Inits.{init_of, parts_in, items_in};
ghost use Rattle.room_props.specs.Weighing.{IsTooDeep};

use crate::editing::EditFault;
use crate::live::Init;
use room_json::{Json, NoMemory, Text, depth};
use std::collections::BTreeMap;

/// The greatest depth of a plain value in an edit.
pub const MAX_VALUE_DEPTH: u64 = 50;

/// The greatest depth of a node.
pub const MAX_NODE_DEPTH: u64 = 60;

/// How many nodes there are, and the greatest depths of a plain value and of a node.
#[derive(Clone, Copy)]
struct Weight {
    nodes: u64,
    values: u64,
    deepest: u64,
}

pub(crate) fn is_plain(init: &Init) -> bool
    ensures { result ≡ is_plain_of (init_of init.now) }
{
    match init {
        Init::Plain(_) => true,
        _ => false,
    }
}

/// A sum, unless there is no memory for so many things.
pub(crate) fn sum(a: u64, b: u64) -> Result<u64, NoMemory>
    ensures { IfOk result (λ n. n ≡ a + b) }
{
    a.checked_add(b).ok_or(NoMemory)
}

/// The node itself, with what lies below it.
fn with_node(below: Weight) -> Result<Weight, NoMemory>
    ensures nodes { IfOk result (λ w. w.nodes ≡ suc below.nodes) }
    ensures values { IfOk result (λ w. w.values ≡ below.values) }
    ensures deepest { IfOk result (λ w. w.deepest ≡ below.deepest) }
{
    Ok(Weight {
        nodes: sum(below.nodes, 1)?,
        values: below.values,
        deepest: below.deepest,
    })
}

/// The depth of a value, unless it is deeper than any memory.
pub(crate) fn exact_depth(value: &Json) -> Result<u64, NoMemory>
    ensures { IfOk result (λ d. d ≡ depth_of (json_of value.now)) }
{
    let levels = depth(value);
    if levels == u64::MAX {
        Err(NoMemory)
    } else {
        Ok(levels)
    }
}

fn joined(a: Weight, b: Weight) -> Result<Weight, NoMemory>
    ensures nodes { IfOk result (λ w. w.nodes ≡ a.nodes + b.nodes) }
    ensures values { IfOk result (λ w. w.values ≡ max a.values b.values) }
    ensures deepest { IfOk result (λ w. w.deepest ≡ max a.deepest b.deepest) }
{
    Ok(Weight {
        nodes: sum(a.nodes, b.nodes)?,
        values: a.values.max(b.values),
        deepest: a.deepest.max(b.deepest),
    })
}

/// What lies below a node of that depth, before any of it is seen.
fn nothing(at: u64) -> Weight
    ensures nodes { result.nodes ≡ 0 }
    ensures values { result.values ≡ 0 }
    ensures deepest { result.deepest ≡ at }
{
    Weight {
        nodes: 0,
        values: 0,
        deepest: at,
    }
}

/// As a node of that depth.
#[cycle(weigh)]
fn weigh(at: u64, init: &Init) -> Result<Weight, NoMemory>
    ensures nodes { IfOk result (λ w. w.nodes ≡ nodes_in (init_of init.now)) }
    ensures values { IfOk result (λ w. w.values ≡ plain_depth (init_of init.now)) }
    ensures deepest { IfOk result (λ w. w.deepest ≡ node_depth at (init_of init.now)) }
{
    match init {
        Init::Plain(value) => Ok(Weight {
            nodes: 1,
            values: exact_depth(value)?,
            deepest: at,
        }),
        Init::Object(parts) => with_node(weigh_live(at, &parts.entries)?),
        Init::Map(parts) => with_node(weigh_parts(at, &parts.entries)?),
        Init::List(items) => with_node(weigh_items(at, items.items.as_slice())?),
    }
}

/// A plain member of an object of that depth is no node.
fn weigh_field(at: u64, value: &Json) -> Result<Weight, NoMemory>
    ensures nodes { IfOk result (λ w. w.nodes ≡ 0) }
    ensures values { IfOk result (λ w. w.values ≡ depth_of (json_of value.now)) }
    ensures deepest { IfOk result (λ w. w.deepest ≡ at) }
{
    Ok(Weight {
        nodes: 0,
        values: exact_depth(value)?,
        deepest: at,
    })
}

/// What lies below an object of that depth.
#[cycle(weigh)]
fn weigh_live(at: u64, parts: &BTreeMap<Text, Init>) -> Result<Weight, NoMemory>
    ensures nodes { IfOk result (λ w. w.nodes ≡ live_nodes (parts_in parts.now.entries)) }
    ensures values { IfOk result (λ w. w.values ≡ parts_plain_depth (parts_in parts.now.entries)) }
    ensures deepest { IfOk result (λ w. w.deepest ≡ live_depth at (parts_in parts.now.entries)) }
{
    let mut weight = nothing(0);
    for (_name, part) in parts.iter() {
        let member = match part {
            Init::Plain(value) => weigh_field(at, value)?,
            _ => weigh(sum(at, 1)?, part)?,
        };
        weight = joined(weight, member)?;
    }
    joined(weight, nothing(at))
}

/// What lies below a map of that depth.
#[cycle(weigh)]
fn weigh_parts(at: u64, parts: &BTreeMap<Text, Init>) -> Result<Weight, NoMemory>
    ensures nodes { IfOk result (λ w. w.nodes ≡ part_nodes (parts_in parts.now.entries)) }
    ensures values { IfOk result (λ w. w.values ≡ parts_plain_depth (parts_in parts.now.entries)) }
    ensures deepest { IfOk result (λ w. w.deepest ≡ parts_depth at (parts_in parts.now.entries)) }
{
    let mut weight = nothing(0);
    for (_name, part) in parts.iter() {
        weight = joined(weight, weigh(sum(at, 1)?, part)?)?;
    }
    joined(weight, nothing(at))
}

/// What lies below a list of that depth.
#[cycle(weigh)]
fn weigh_items(at: u64, items: &[Init]) -> Result<Weight, NoMemory>
    ensures nodes { IfOk result (λ w. w.nodes ≡ init_nodes (items_in items.now)) }
    ensures values { IfOk result (λ w. w.values ≡ inits_plain_depth (items_in items.now)) }
    ensures deepest { IfOk result (λ w. w.deepest ≡ inits_depth at (items_in items.now)) }
{
    let mut weight = nothing(0);
    for item in items {
        weight = joined(weight, weigh(sum(at, 1)?, item)?)?;
    }
    joined(weight, nothing(at))
}

/// How many nodes a live value makes as a node of that depth, or that it is too deep.
pub fn weighed(at: u64, init: &Init) -> Result<u64, EditFault>
    ensures nodes { IfOk result (λ n. n ≡ nodes_in (init_of init.now)) }
    ensures values { OnOk result (plain_depth (init_of init.now) ≤ 50) }
    ensures deepest { OnOk result (node_depth at (init_of init.now) ≤ 60) }
    ensures err { IfErr result (IsTooDeep at (init_of init.now)) }
{
    let weight = weigh(at, init)?;
    if weight.values > MAX_VALUE_DEPTH {
        return Err(EditFault::ValueTooDeep(weight.values));
    }
    if weight.deepest > MAX_NODE_DEPTH {
        return Err(EditFault::NodeTooDeep(weight.deepest));
    }
    Ok(weight.nodes)
}
