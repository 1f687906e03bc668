//! What a store takes of the operations that a session sends.
ghost use Rattle.std.specs.Prelude.{◌≡◌, ◌≤◌, ◌<◌, ◌+◌, ◌++◌, ◌∷◌, [], length, nat_lt, vec_len, vec_capacity};
ghost use Rattle.std.specs.Prelude.{IfOk, OnOk};
ghost use Rattle.std.specs.FinMap.{len};
ghost use Rattle.room_nodes.specs.Steps.{settle_all, settled_body, fold, step as step_of};
ghost use Rattle.room_log.specs.Log.{bodies_of, ops_from};
ghost use Rattle.room_log.specs.Taking.{rest_beyond, gap_in};
ghost use Rattle.room_store.specs.Planning.{news_in};
ghost use Rattle.room_store.specs.Undoing.{gone, CanGo};

use room_apply::{Edits, step};
use room_ids::{OpId, Stamp};
use room_json::{Copied, NoMemory};
use room_nodes::{Bodies, Body, Op, Ops};
use room_tree::{Tree, settled};
use std::alloc::Global;

/// What a planning took: nothing, or an update with its number and its operations as they settled.
#[derive(Drop)]
pub enum Taken {
    Nothing,
    Update { seq: u64, ops: Ops },
}

/// What is new of operations: nothing, or the clocks have a gap, or they run on.
#[derive(Drop)]
pub enum News {
    Nothing,
    Gap(u64, u64),
    RunOn,
}

/// Whether an operation is beyond the last clock.
fn is_any_new(last: u64, ops: &[Op]) -> bool
    ensures { result ≡ nat_lt 0 (length (rest_beyond last ops.now)) }
{
    for op in ops {
        let OpId(stamp) = op.id;
        if last < stamp.clock() {
            return true;
        }
    }
    false
}

/// Where the clocks of the operations beyond the last one don't run on: which was expected there, and which came.
fn gap_of(last: u64, ops: &[Op]) -> Option<(u64, u64)>
    requires { last + 1 ≤ 9007199254740992 }
    ensures { result ≡ gap_in (last + 1) (rest_beyond last ops.now) }
{
    let mut expected = last + 1;
    for op in ops {
        let OpId(stamp) = op.id;
        let clock = stamp.clock();
        if last < clock {
            if clock != expected {
                return Some((expected, clock));
            }
            expected = clock + 1;
        }
    }
    None
}

/// What is new of operations beyond the last clock. Takes no memory.
pub fn news_of(last: u64, ops: &[Op]) -> News
    requires { last + 1 ≤ 9007199254740992 }
    ensures { result ≡ news_in (rest_beyond last ops.now) (gap_in (last + 1) (rest_beyond last ops.now)) }
{
    if !is_any_new(last, ops) {
        return News::Nothing;
    }
    match gap_of(last, ops) {
        Some((expected, got)) => News::Gap(expected, got),
        None => News::RunOn,
    }
}

/// Adds what takes a step back, where there is room.
fn keep(steps: &mut Vec<Edits>, one: Edits)
    requires room { vec_len steps.old < vec_capacity steps.old }
    ensures items { steps.new.items ≡ steps.old.items ++ one ∷ [] }
    ensures len { vec_len steps.new ≡ vec_len steps.old + 1 }
    ensures capacity { vec_capacity steps.old ≤ vec_capacity steps.new }
{
    match steps.push(one) {
        Ok(()) => (),
        Err(_) => unreachable!(),
    }
}

/// Steps a tree by an operation as it settles, and keeps what takes that back.
fn step_one<T: Tree>(
    alloc: Global,
    t: &mut T,
    op: &Op,
    steps: &mut Vec<Edits>,
) -> Result<Body, NoMemory>
    requires room { vec_len steps.old < vec_capacity steps.old }
    ensures body { IfOk result (λ b. b ≡ settled_body (T.nodes t.old) op.now.body) }
    ensures tree { OnOk result (T.nodes t.new ≡ step_of (T.nodes t.old) (settled_body (T.nodes t.old) op.now.body)) }
    ensures gone { gone (T.nodes t.new) steps.new.items ≡ gone (T.nodes t.old) steps.old.items }
    ensures can { CanGo (len (T.nodes t.old) + T.spare t.old) (T.nodes t.old) steps.old.items
        → CanGo (len (T.nodes t.new) + T.spare t.new) (T.nodes t.new) steps.new.items }
    ensures len { vec_len steps.new ≤ vec_len steps.old + 1 }
    ensures capacity { vec_capacity steps.old ≤ vec_capacity steps.new }
    ensures sum { len (T.nodes t.old) + T.spare t.old ≤ len (T.nodes t.new) + T.spare t.new }
{
    let next = settled(alloc, &*t, op)?;
    keep(steps, step(alloc, t, &next)?);
    Ok(next.body)
}

/// Steps a tree by the operations beyond the last clock, each as it settles on the tree after those before it, as far
/// as there is memory; and keeps what takes the steps back.
pub fn step_each<T: Tree>(
    alloc: Global,
    t: &mut T,
    last: u64,
    ops: &[Op],
    steps: &mut Vec<Edits>,
) -> Result<Bodies, NoMemory>
    requires room { vec_len steps.old + length ops.now ≤ vec_capacity steps.old }
    requires none { steps.old.items ≡ [] }
    ensures bodies { IfOk result (λ bs. bs ≡ settle_all (T.nodes t.old) (bodies_of (rest_beyond last ops.now))) }
    ensures tree { OnOk result (T.nodes t.new
        ≡ fold (T.nodes t.old) (settle_all (T.nodes t.old) (bodies_of (rest_beyond last ops.now)))) }
    ensures gone { gone (T.nodes t.new) steps.new.items ≡ T.nodes t.old }
    ensures can { CanGo (len (T.nodes t.new) + T.spare t.new) (T.nodes t.new) steps.new.items }
    ensures sum { len (T.nodes t.old) + T.spare t.old ≤ len (T.nodes t.new) + T.spare t.new }
{
    let mut bodies = Bodies::new(alloc);
    for op in ops {
        let OpId(stamp) = op.id;
        if last < stamp.clock() {
            let body = step_one(alloc, t, op, steps)?;
            bodies.push(body)?;
        }
    }
    Ok(bodies)
}

/// Operations of an actor, whose clocks run on from the first.
pub fn ops_of(alloc: Global, actor: u32, first: u64, bodies: &[Body]) -> Result<Ops, NoMemory>
    ensures { IfOk result (λ os. os ≡ ops_from actor first bodies.now) }
{
    let mut ops = Ops::new(alloc);
    let mut clock = first;
    for body in bodies {
        let Some(stamp) = Stamp::new(actor, clock) else {
            return Err(NoMemory);
        };
        ops.push(Op {
            id: OpId(stamp),
            body: body.copy(alloc)?,
        })?;
        clock = stamp.clock() + 1;
    }
    Ok(ops)
}
