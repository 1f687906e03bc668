//! The own operations beyond the acknowledged ones.
ghost use Rattle.std.specs.Prelude.{◌≡◌, ◌≤◌, ◌<◌, ◌+◌, ◌-◌, ◌++◌, ◌∷◌, [], ℕ, if◌then◌else◌, is_some, length, take};
ghost use Rattle.std.specs.Prelude.{drop, map, slice_get, Some, vec_len, vec_capacity, OnOk, OnErr};
ghost use Rattle.room_json.specs.Limits.{max_whole};
ghost use Rattle.room_nodes.specs.Steps.{fold};
ghost use Rattle.room_log.specs.Log.{bodies_of, ops_from};
ghost use Rattle.room_model.specs.Account.{batch_ops, last_clock};
ghost use Rattle.room_model.specs.Sound.{RunsOn};
ghost use Rattle.room_overlay.specs.Own.{Own as Meaning, new_own, own_ops, own_bodies, own_batches, end_of, next_clock};
ghost use Rattle.room_overlay.specs.Own.{added, opened, sealed_own, acknowledged};
ghost use Rattle.room_overlay.specs.Kept.{above, last_of};

use crate::together::step_all;
use room_json::{Copied, NoMemory, Seq};
use room_nodes::{Op, Ops};
use room_tree::Tree;
use std::alloc::Global;
use std::marker::Model;

/// The own operations beyond the last acknowledged clock. Contracts see issued batches and the open one.
///
/// All operations are kept in one list, the open batch's last, and of each issued batch its last clock.
#[derive(Drop)]
pub(crate) struct Own {
    actor: u32,
    told: u64,
    last: u64,
    lasts: Vec<u64>,
    ops: Ops,
    open: bool,
}

impl Model for Own {
    ghost use Rattle.std.specs.Prelude.{◌≡◌, ◌<◌, true, vec_len, vec_capacity};
    ghost use Rattle.room_overlay.specs.Codes.{own_code};
    ghost use Rattle.room_overlay.specs.Kept.{IsKept, own_of};
    ghost use Rattle.room_overlay.specs.Own.{Own as Meaning};

    ghost Value = { Meaning };

    ghost coded = { own_code };

    ghost view = { λ s. own_of s.actor s.told s.last s.lasts.items s.ops s.«open» };

    ghost invariant = { λ s. IsKept s.actor s.told s.last s.lasts.items s.ops s.«open»
        × (s.«open» ≡ true → vec_len s.lasts < vec_capacity s.lasts) };
}

/// Appends copies of operations, or none.
fn append(alloc: Global, list: &mut Ops, ops: &Ops) -> Result<(), NoMemory>
    ensures ok { OnOk result (list.new ≡ list.old ++ ops.now) }
    ensures err { OnErr result (list.new ≡ list.old) }
{
    let mut more = ops.copy(alloc)?.into_vec();
    let mut all = std::mem::replace(list, Seq::new(alloc)).into_vec();
    let done = all.append(&mut more);
    *list = Seq::from_vec(all);
    done?;
    Ok(())
}

/// Keeps the first operations.
fn shorten(alloc: Global, list: &mut Ops, len: usize)
    ensures { list.new ≡ take len list.old }
{
    let mut all = std::mem::replace(list, Seq::new(alloc)).into_vec();
    all.truncate(len);
    *list = Seq::from_vec(all);
}

/// Lets the first operations go.
fn skip(alloc: Global, list: &mut Ops, count: usize)
    requires { count ≤ length list.old }
    ensures { list.new ≡ drop count list.old }
{
    let mut all = std::mem::replace(list, Seq::new(alloc)).into_vec();
    drop(all.drain(..count));
    *list = Seq::from_vec(all);
}

/// Lets the clocks go that are not above one.
fn forget(lasts: &mut Vec<u64>, c: u64)
    ensures items { lasts.new.items ≡ above c lasts.old.items }
    ensures len { vec_len lasts.new ≤ vec_len lasts.old }
    ensures capacity { vec_capacity lasts.new ≡ vec_capacity lasts.old }
{
    let mut gone = 0;
    while gone < lasts.len() && lasts[gone] <= c {
        gone += 1;
    }
    drop(lasts.drain(..gone));
}

/// Appends copies of operations and steps a tree by them, or none of both.
fn append_stepped<T: Tree>(
    alloc: Global,
    list: &mut Ops,
    t: &mut T,
    ops: &Ops,
) -> Result<(), NoMemory>
    ensures ok { OnOk result
        ((list.new ≡ list.old ++ ops.now) × (T.nodes t.new ≡ fold (T.nodes t.old) (bodies_of ops.now))) }
    ensures err { OnErr result ((list.new ≡ list.old) × (T.nodes t.new ≡ T.nodes t.old)) }
{
    let len = list.len() as usize;
    append(alloc, list, ops)?;
    match step_all(alloc, t, ops.as_slice()) {
        Ok(()) => Ok(()),
        Err(NoMemory) => {
            shorten(alloc, list, len);
            Err(NoMemory)
        }
    }
}

/// The operations behind the first.
fn behind(ops: &[Op], count: usize) -> &[Op]
    requires { count ≤ length ops.now }
    ensures { result.now ≡ drop count ops.now }
{
    &ops[count..]
}

/// The operations from one place to another.
fn between(ops: &[Op], start: usize, end: usize) -> &[Op]
    requires order { start ≤ end }
    requires within { end ≤ length ops.now }
    ensures { result.now ≡ take (end - start) (drop start ops.now) }
{
    &ops[start..end]
}

/// The clock before an index, or else another one.
fn before(lasts: &[u64], i: usize, or: u64) -> u64
    requires { i ≤ length lasts.now }
    ensures { result ≡ last_of or (take i lasts.now) }
{
    if i == 0 { or } else { lasts[i - 1] }
}

/// The clock of the last operation, or else another one.
fn last_clock(ops: &[Op], or: u64) -> u64
    requires { or ≤ max_whole }
    ensures none { length ops.now ≡ 0 → result ≡ or }
    ensures some { (a c : ℕ) → ops.now ≡ ops_from a (c + 1) (bodies_of ops.now) → 0 < length ops.now
        → result ≡ c + length ops.now }
    ensures bound { result ≤ max_whole }
{
    match ops.last() {
        Some(op) => op.id.0.clock(),
        None => or,
    }
}

fn one_if(yes: bool) -> u64
    ensures value { result ≡ (if yes then 1 else 0) }
    ensures bound { result ≤ 1 }
{
    if yes { 1 } else { 0 }
}

impl Own {
    /// Nothing yet.
    pub(crate) fn new(alloc: Global, actor: u32) -> Own
        ensures { result ≡ new_own actor }
    {
        Own {
            actor,
            told: 0,
            last: 0,
            lasts: Vec::new(alloc),
            ops: Seq::new(alloc),
            open: false,
        }
    }

    /// Whose they are.
    pub(crate) fn actor(&self) -> u32
        ensures { result ≡ self.now.actor }
    {
        self.actor
    }

    /// The last acknowledged clock.
    pub(crate) fn told(&self) -> u64
        ensures { result ≡ self.now.told }
    {
        self.told
    }

    /// How many batches are issued.
    pub(crate) fn issued(&self) -> usize
        ensures { result ≡ length self.now.issued }
    {
        self.lasts.len()
    }

    /// The clock of an issued batch's last operation.
    pub(crate) fn batch_end(&self, i: usize) -> u64
        requires { i < length self.now.issued }
        ensures { Some result ≡ slice_get (map last_clock self.now.issued) i }
    {
        self.lasts[i]
    }

    /// The operations of an issued batch.
    pub(crate) fn batch(&self, i: usize) -> &[Op]
        requires { i < length self.now.issued }
        ensures { Some result.now ≡ slice_get (map (batch_ops self.now.actor) self.now.issued) i }
    {
        let start = before(self.lasts.as_slice(), i, self.told);
        between(
            self.ops.as_slice(),
            (start - self.told) as usize,
            (self.lasts[i] - self.told) as usize,
        )
    }

    /// The last clock that was issued.
    pub(crate) fn last(&self) -> u64
        ensures last { result ≡ end_of self.now }
        ensures runs { RunsOn self.now.told self.now.issued }
        ensures bound { result ≤ max_whole }
        ensures within { self.now.told ≤ result }
    {
        self.last
    }

    /// All operations, in the order of their clocks.
    pub(crate) fn ops(&self) -> &Ops
        ensures ops { result.now ≡ own_ops self.now }
        ensures bodies { bodies_of result.now ≡ own_bodies self.now }
    {
        &self.ops
    }

    /// The operations beyond a clock.
    pub(crate) fn beyond(&self, c: u64) -> &[Op]
        requires within { self.now.told ≤ c }
        requires issued { c ≤ end_of self.now }
        ensures { bodies_of result.now ≡ own_bodies (acknowledged self.now c) }
    {
        behind(self.ops.as_slice(), (c - self.told) as usize)
    }

    /// Whether a batch is open.
    pub(crate) fn is_open(&self) -> bool
        ensures { result ≡ is_some self.now.batch }
    {
        self.open
    }

    /// The clock of the next operation.
    pub(crate) fn next_clock(&self) -> u64
        ensures { result ≡ next_clock self.now }
    {
        self.told + 1 + self.ops.as_slice().len() as u64
    }

    /// The open batch's operations.
    pub(crate) fn opened(&self) -> &[Op]
        ensures { result.now ≡ ops_from self.now.actor (end_of self.now + 1) (opened self.now.batch) }
    {
        behind(self.ops.as_slice(), (self.last - self.told) as usize)
    }

    /// How many batches there are with an operation, the open one too.
    pub(crate) fn batches(&self) -> u64
        ensures { result ≡ own_batches self.now }
    {
        let open = self.last - self.told < self.ops.len();
        self.lasts.len() as u64 + one_if(open)
    }

    /// Adds operations to the open batch, or opens one, and steps a tree by them. A refused call changes nothing.
    pub(crate) fn add<T: Tree>(
        &mut self,
        alloc: Global,
        t: &mut T,
        ops: &Ops,
    ) -> Result<(), NoMemory>
        requires { ops.now ≡ ops_from self.old.actor (next_clock self.old) (bodies_of ops.now) }
        ensures ok { OnOk result
            ((self.new ≡ added self.old (bodies_of ops.now))
            × (T.nodes t.new ≡ fold (T.nodes t.old) (bodies_of ops.now))) }
        ensures err { OnErr result ((self.new ≡ self.old) × (T.nodes t.new ≡ T.nodes t.old)) }
    {
        self.lasts.reserve(1)?;
        append_stepped(alloc, &mut self.ops, t, ops)?;
        self.open = true;
        Ok(())
    }

    /// Issues the open batch, where there is one that holds an operation.
    pub(crate) fn seal(&mut self)
        ensures { self.new ≡ sealed_own self.old }
    {
        let last = last_clock(self.ops.as_slice(), self.last);
        if last <= self.last {
            self.open = false;
            return;
        }
        self.lasts.push(last).unwrap();
        self.last = last;
        self.open = false;
    }

    /// The operations up to a clock are acknowledged.
    pub(crate) fn acknowledge(&mut self, alloc: Global, c: u64)
        requires within { self.old.told ≤ c }
        requires issued { c ≤ end_of self.old }
        ensures { self.new ≡ acknowledged self.old c }
    {
        skip(alloc, &mut self.ops, (c - self.told) as usize);
        forget(&mut self.lasts, c);
        self.told = c;
    }
}
