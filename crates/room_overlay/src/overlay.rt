//! The overlay: what is confirmed, what is pending on top, and what is shown.
ghost use Rattle.std.specs.Prelude.{◌≡◌, ◌≤◌, ◌<◌, ◌+◌, ◌++◌, ◌∷◌, [], ℕ, List, Ok, Some, is_some, length, map};
ghost use Rattle.std.specs.Prelude.{slice_get, IfOk, IfErr, OnOk, OnErr};
ghost use Rattle.std.specs.Option.{option_map};
ghost use Rattle.room_json.specs.Limits.{max_whole};
ghost use Rattle.room_nodes.specs.declared.nodes.Body.{Body};
ghost use Rattle.room_nodes.specs.Steps.{fold};
ghost use Rattle.room_nodes.specs.Cells.{is_apart};
ghost use Rattle.room_nodes.specs.Equal.{are_first};
ghost use Rattle.room_log.specs.Log.{bodies_of, ops_from};
ghost use Rattle.room_model.specs.Account.{batch_ops, last_clock};
ghost use Rattle.room_model.specs.Sound.{RunsOn};
ghost use Rattle.room_overlay.specs.Kept.{IsShown};
ghost use Rattle.room_overlay.specs.Over.{new_over, opened_ops, pending, shown, unacknowledged, last_issued};
ghost use Rattle.room_overlay.specs.Over.{next_clock};
ghost use Rattle.room_overlay.specs.Over.{added_to, sealed, load, loaded, stands_apart, update, updated, IsFaultOf};

use crate::equality::are_first;
use crate::faults::OverFault;
use crate::own::Own;
use crate::telling::{none_own, told_by};
use crate::together::step_all;
use crate::touching::touched_by;
use room_foot::touches;
use room_json::NoMemory;
use room_nodes::{Op, Ops};
use room_tree::{Tree, copy_of};
use std::alloc::Global;
use std::marker::Model;

/// The confirmed tree of an actor's client with the actor's own operations beyond the acknowledged ones on top.
/// Contracts see the overlay's part of a client's account.
///
/// There are two trees, the confirmed one and the one that is shown. Until an operation or an update comes the first
/// is shown, and there is no second one.
#[derive(Drop)]
pub struct Overlay<T: Tree> {
    own: Own,
    n: u64,
    confirmed: T,
    shown: Option<T>,
}

impl<T: Tree> Model for Overlay<T> {
    ghost use Rattle.std.specs.Prelude.{◌≤◌};
    ghost use Rattle.std.specs.Option.{option_map};
    ghost use Rattle.room_json.specs.Limits.{max_whole};
    ghost use Rattle.room_overlay.specs.Codes.{over_code};
    ghost use Rattle.room_overlay.specs.Kept.{IsShown};
    ghost use Rattle.room_overlay.specs.Over.{Over};
    ghost use Rattle.room_overlay.specs.Own.{own_bodies};

    ghost Value = { Over };

    ghost coded = { over_code };

    ghost view = { λ o. record {
      actor = o.own.actor;
      n = o.n;
      told = o.own.told;
      confirmed = T.Tree.nodes o.confirmed;
      issued = o.own.issued;
      batch = o.own.batch;
    } };

    ghost invariant = { λ o.
        IsShown (T.Tree.nodes o.confirmed) (option_map T.Tree.nodes o.shown) (own_bodies o.own) × (o.n ≤ max_whole) };
}

/// A copy of a tree, stepped by two lists of operations.
fn rebuilt<T: Tree>(alloc: Global, t: &T, ops: &[Op], rest: &[Op]) -> Result<T, NoMemory>
    ensures { IfOk result (λ u. T.nodes u ≡ fold (fold (T.nodes t.now) (bodies_of ops.now)) (bodies_of rest.now)) }
{
    let mut u = copy_of(alloc, t)?;
    step_all(alloc, &mut u, ops)?;
    step_all(alloc, &mut u, rest)?;
    Ok(u)
}

/// Steps both trees by an update where nothing is pending, all or none. The second is made where there is none, and
/// given up where memory is too short to step it.
fn step_shown<T: Tree>(
    alloc: Global,
    confirmed: &mut T,
    shown: &mut Option<T>,
    ops: &[Op],
) -> Result<(), NoMemory>
    requires { IsShown (T.nodes confirmed.old) (option_map T.nodes shown.old) [] }
    ensures ok { OnOk result (T.nodes confirmed.new ≡ fold (T.nodes confirmed.old) (bodies_of ops.now)) }
    ensures shown { OnOk result (IsShown (T.nodes confirmed.new) (option_map T.nodes shown.new) []) }
    ensures err { OnErr result (T.nodes confirmed.new ≡ T.nodes confirmed.old) }
    ensures kept { OnErr result (IsShown (T.nodes confirmed.old) (option_map T.nodes shown.new) []) }
{
    step_all(alloc, confirmed, ops)?;
    if let Some(mut second) = shown.take() {
        if step_all(alloc, &mut second, ops).is_ok() {
            *shown = Some(second);
        }
    }
    Ok(())
}

/// Steps both trees by an update, all or none. The shown one is what it was before with the update below it: made anew
/// where something was pending, else stepped.
fn step_both<T: Tree>(
    alloc: Global,
    confirmed: &mut T,
    shown: &mut Option<T>,
    ops: &[Op],
    pending: &[Op],
    rest: &[Op],
) -> Result<(), NoMemory>
    requires shown { IsShown (T.nodes confirmed.old) (option_map T.nodes shown.old) (bodies_of pending.now) }
    requires rest { bodies_of pending.now ≡ [] → bodies_of rest.now ≡ [] }
    ensures ok { OnOk result (T.nodes confirmed.new ≡ fold (T.nodes confirmed.old) (bodies_of ops.now)) }
    ensures shown { OnOk result (IsShown (T.nodes confirmed.new) (option_map T.nodes shown.new) (bodies_of rest.now)) }
    ensures err { OnErr result (T.nodes confirmed.new ≡ T.nodes confirmed.old) }
    ensures kept { OnErr result
        (IsShown (T.nodes confirmed.old) (option_map T.nodes shown.new) (bodies_of pending.now)) }
{
    if pending.is_empty() {
        step_shown(alloc, confirmed, shown, ops)
    } else {
        let fresh = rebuilt(alloc, confirmed, ops, rest)?;
        step_all(alloc, confirmed, ops)?;
        *shown = Some(fresh);
        Ok(())
    }
}

/// Whether two lists of operations are apart on a tree.
fn are_apart<T: Tree>(alloc: Global, t: &T, a: &[Op], b: &[Op]) -> Result<bool, NoMemory>
    ensures { IfOk result (λ yes. yes ≡ is_apart (T.nodes t.now) (bodies_of a.now) (bodies_of b.now)) }
{
    let one = touched_by(alloc, t, a)?;
    let other = touched_by(alloc, t, b)?;
    let first = touches(one.written.as_slice(), other.all.as_slice());
    let second = touches(other.written.as_slice(), one.all.as_slice());
    Ok(!first && !second)
}

/// The shown tree, or a copy of the confirmed one where it is shown.
fn take_or_copy<T: Tree>(alloc: Global, confirmed: &T, shown: &mut Option<T>) -> Result<T, NoMemory>
    ensures ok { (bs : List Body) → IsShown (T.nodes confirmed.now) (option_map T.nodes shown.old) bs
        → IfOk result (λ u. T.nodes u ≡ fold (T.nodes confirmed.now) bs) }
    ensures err { OnErr result (shown.new ≡ shown.old) }
{
    match shown.take() {
        Some(tree) => Ok(tree),
        None => copy_of(alloc, confirmed),
    }
}

impl<T: Tree> Overlay<T> {
    /// An overlay of an actor that shows a tree, with no update taken and nothing pending. Takes no memory.
    pub fn new(alloc: Global, empty: T, actor: u32) -> Overlay<T>
        ensures { result ≡ new_over (T.nodes empty) actor }
    {
        Overlay {
            own: Own::new(alloc, actor),
            n: 0,
            confirmed: empty,
            shown: None,
        }
    }

    /// The confirmed tree with the pending operations on top.
    pub fn shown(&self) -> &T
        ensures { T.nodes result.now ≡ shown self.now }
    {
        match &self.shown {
            Some(t) => t,
            None => &self.confirmed,
        }
    }

    /// The tree after the last update taken.
    pub fn confirmed(&self) -> &T
        ensures { T.nodes result.now ≡ self.now.confirmed }
    {
        &self.confirmed
    }

    /// The own operations beyond the acknowledged ones, the open batch's too.
    pub fn pending(&self) -> &Ops
        ensures { result.now ≡ pending self.now }
    {
        self.own.ops()
    }

    /// How many issued batches aren't acknowledged whole, and the open one, if it holds operations.
    pub fn batches(&self) -> u64
        ensures { result ≡ unacknowledged self.now }
    {
        self.own.batches()
    }

    /// The last clock that was issued.
    pub fn last_issued(&self) -> u64
        ensures last { result ≡ last_issued self.now }
        ensures runs { RunsOn self.now.told self.now.issued }
        ensures bound { result ≤ max_whole }
    {
        self.own.last()
    }

    /// How many issued batches aren't acknowledged whole.
    pub fn issued(&self) -> usize
        ensures { result ≡ length self.now.issued }
    {
        self.own.issued()
    }

    /// The operations of an issued batch that aren't acknowledged.
    pub fn batch(&self, i: usize) -> &[Op]
        requires { i < length self.now.issued }
        ensures { Some result.now ≡ slice_get (map (batch_ops self.now.actor) self.now.issued) i }
    {
        self.own.batch(i)
    }

    /// The clock of an issued batch's last operation.
    pub fn batch_end(&self, i: usize) -> u64
        requires { i < length self.now.issued }
        ensures { Some result ≡ slice_get (map last_clock self.now.issued) i }
    {
        self.own.batch_end(i)
    }

    /// Whether the pending operations begin with these.
    pub fn begins(&self, ops: &Ops) -> bool
        ensures { result ≡ are_first ops.now (pending self.now) }
    {
        are_first(ops.as_slice(), self.own.ops().as_slice())
    }

    /// Whether a batch is open: local operations continue it.
    pub fn is_open(&self) -> bool
        ensures { result ≡ is_some self.now.batch }
    {
        self.own.is_open()
    }

    /// The open batch's operations, which aren't issued yet.
    pub fn opened(&self) -> &[Op]
        ensures { result.now ≡ opened_ops self.now }
    {
        self.own.opened()
    }

    /// The clock of the actor's next operation.
    pub fn next_clock(&self) -> u64
        ensures { result ≡ next_clock self.now }
    {
        self.own.next_clock()
    }

    /// The number of the last update taken.
    pub fn taken(&self) -> u64
        ensures { result ≡ self.now.n }
    {
        self.n
    }

    /// The last acknowledged clock.
    pub fn told(&self) -> u64
        ensures { result ≡ self.now.told }
    {
        self.own.told()
    }
}

impl<T: Tree> Overlay<T> {
    /// Takes a state: a tree, the number of its last update, and the last clock of the actor in it. Nothing changes
    /// where it is refused or out of memory. Makes a copy of the tree, and steps that by the operations that are left.
    pub fn load(&mut self, alloc: Global, items: T, n: u64, last: u64) -> Result<(), OverFault>
        requires { n ≤ max_whole }
        ensures ok { OnOk result (load self.old n last (T.nodes items) ≡ Ok self.new) }
        ensures fault { IfErr result (IsFaultOf (load self.old n last (T.nodes items))) }
        ensures err { OnErr result (self.new ≡ self.old) }
    {
        if n < self.n {
            return Err(OverFault::Account(self.n, n));
        }
        let told = self.own.told();
        if last < told {
            return Err(OverFault::Account(told, last));
        }
        let issued = self.own.last();
        if issued < last {
            return Err(OverFault::Account(issued, last));
        }
        let shown = rebuilt(alloc, &items, &[], self.own.beyond(last))?;
        self.own.acknowledge(alloc, last);
        self.n = n;
        self.confirmed = items;
        self.shown = Some(shown);
        Ok(())
    }

    /// Takes the next update. Nothing changes where it is refused or out of memory.
    ///
    /// Where nothing is pending it costs its own operations; else the shown tree is made anew.
    pub fn update(&mut self, alloc: Global, n: u64, ops: &Ops) -> Result<(), OverFault>
        requires { n ≤ max_whole }
        ensures ok { OnOk result (update self.old n ops.now ≡ Ok self.new) }
        ensures fault { IfErr result (IsFaultOf (update self.old n ops.now)) }
        ensures err { OnErr result (self.new ≡ self.old) }
    {
        let expected = self.n + 1;
        if n != expected {
            return Err(OverFault::Gap(expected, n));
        }
        match told_by(
            self.own.actor(),
            self.own.last(),
            self.own.told(),
            ops.as_slice(),
        ) {
            Ok(told) => {
                self.take(alloc, n, ops.as_slice(), told)?;
                Ok(())
            }
            Err((kept, got)) => Err(OverFault::Account(kept, got)),
        }
    }

    /// Takes an update that was found good.
    fn take(&mut self, alloc: Global, n: u64, ops: &[Op], told: u64) -> Result<(), NoMemory>
        requires next { n ≡ self.old.n + 1 }
        requires bound { n ≤ max_whole }
        requires within { self.old.told ≤ told }
        requires issued { told ≤ last_issued self.old }
        ensures ok { OnOk result (self.new ≡ updated self.old ops.now told) }
        ensures err { OnErr result (self.new ≡ self.old) }
    {
        let rest = self.own.beyond(told);
        step_both(
            alloc,
            &mut self.confirmed,
            &mut self.shown,
            ops,
            self.own.ops().as_slice(),
            rest,
        )?;
        self.own.acknowledge(alloc, told);
        self.n = n;
        Ok(())
    }

    /// Puts local operations into the open batch, or opens one with them. Nothing changes out of memory. Costs the
    /// operations; the first call copies the tree.
    pub fn local(&mut self, alloc: Global, ops: &Ops, continues: bool) -> Result<(), NoMemory>
        requires next { ops.now ≡ ops_from self.old.actor (next_clock self.old) (bodies_of ops.now) }
        requires open { is_some self.old.batch ≡ continues }
        ensures ok { OnOk result (self.new ≡ added_to self.old (bodies_of ops.now)) }
        ensures err { OnErr result (self.new ≡ self.old) }
    {
        let mut shown = take_or_copy(alloc, &self.confirmed, &mut self.shown)?;
        let done = self.own.add(alloc, &mut shown, ops);
        self.shown = Some(shown);
        done
    }

    /// Ends the open batch: it is issued, if it holds operations. Does nothing where none is open.
    pub fn seal(&mut self)
        ensures { self.new ≡ sealed self.old }
    {
        self.own.seal();
    }

    /// Whether no operation is the actor's own, and none touches on the confirmed tree what a pending one writes, or
    /// writes what a pending one touches: then they may go below the pending ones with no other effect. Changes
    /// nothing. Steps two copies of the confirmed tree.
    pub fn apart(&mut self, alloc: Global, ops: &Ops) -> Result<bool, NoMemory>
        ensures ok { IfOk result (λ yes. yes ≡ stands_apart self.old ops.now) }
        ensures same { self.new ≡ self.old }
    {
        if !none_own(self.own.actor(), ops.as_slice()) {
            return Ok(false);
        }
        are_apart(
            alloc,
            &self.confirmed,
            ops.as_slice(),
            self.own.ops().as_slice(),
        )
    }
}
