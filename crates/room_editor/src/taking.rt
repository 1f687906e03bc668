//! What is taken of the server's messages.
ghost use Rattle.std.specs.Prelude.{◌≡◌, ◌≤◌, ◌∷◌, [], true, is_some, drop, Some, Ok, IfOk, IfErr, OnOk, OnErr};
ghost use Rattle.room_items.specs.View.{view as view_of};
ghost use Rattle.room_json.specs.Limits.{max_whole};
ghost use Rattle.room_json.specs.View.{json_of};
ghost use Rattle.room_model.specs.Account.{actor as actor_of};
ghost use Rattle.room_model.specs.Notices.{Reset};
ghost use Rattle.room_model.specs.Receive.{load as load_of, update_numbered, welcomed, welcomed_as};
ghost use Rattle.room_nodes.specs.Shape.{empty_tree};
ghost use Rattle.room_notice.specs.Notices.{notices_in};
ghost use Rattle.room_overlay.specs.Over.{IsFaultOf, new_over, last_issued, load as load_into, shown as shown_of};
ghost use Rattle.room_overlay.specs.Over.{update as update_into};
ghost use Rattle.room_editor.specs.Editor.{at_rest, taken};
ghost use Rattle.room_editor.specs.Taking.{notices_with, update_shows, own_count as own_count_of};

use crate::editor::Editor;
use crate::telling::{told, view_after};
use room_json::{Json, NoMemory};
use room_msg::Resume;
use room_nodes::{Op, Ops};
use room_notice::{Notice, Notices};
use room_overlay::{OverFault, Overlay};
use room_tree::Tree;
use std::alloc::Global;

/// The operations behind the first.
fn behind(ops: &[Op], count: u64) -> &[Op]
    ensures { result.now ≡ drop count ops.now }
{
    let len = ops.len() as u64;
    &ops[count.min(len) as usize..]
}

fn reset(alloc: Global, view: Json) -> Result<Notices, NoMemory>
    ensures { IfOk result (λ ns. notices_in ns ≡ Reset (json_of view) ∷ []) }
{
    let mut notices = Notices::new(alloc);
    notices.push(Notice::Reset(view))?;
    Ok(notices)
}

/// An overlay takes a state, and the notices say what is shown then. Nothing changes where it is refused or out of
/// memory. Copies the tree where operations are left.
fn load_over<T: Tree>(
    alloc: Global,
    over: &mut Overlay<T>,
    items: T,
    seq: u64,
    last: u64,
) -> Result<Notices, OverFault>
    requires { seq ≤ max_whole }
    ensures ok { OnOk result (load_into over.old seq last (T.nodes items) ≡ Ok over.new) }
    ensures kept { OnOk result (last_issued over.new ≡ last_issued over.old) }
    ensures notices { IfOk result (λ ns. notices_in ns ≡ Reset (view_of (shown_of over.new)) ∷ []) }
    ensures fault { IfErr result (IsFaultOf (load_into over.old seq last (T.nodes items))) }
    ensures err { OnErr result (over.new ≡ over.old) }
{
    over.last_issued();
    let left = last.saturating_sub(over.told());
    let rest = behind(over.pending().as_slice(), left);
    let view = view_after(alloc, &items, &[], rest)?;
    let notices = reset(alloc, view)?;
    over.load(alloc, items, seq, last)?;
    Ok(notices)
}

/// An overlay with its first state, and the notices of that.
#[derive(Drop)]
struct First<T: Tree> {
    over: Overlay<T>,
    notices: Notices,
}

/// How many of these operations are an actor's.
fn own_count(actor: u32, ops: &[Op]) -> u64
    ensures { result ≡ own_count_of actor ops.now }
{
    let mut count = 0;
    for op in ops {
        if op.id.0.actor() == actor {
            count += 1;
        }
    }
    count
}

/// What an update changes in the view of an overlay, which is to take it. Copies the tree where the view is another.
fn foreseen<T: Tree>(
    alloc: Global,
    over: &mut Overlay<T>,
    actor: u32,
    ops: &Ops,
) -> Result<Notices, NoMemory>
    requires { over.old.actor ≡ actor }
    ensures notices { IfOk result (λ ns. notices_in ns
        ≡ notices_with over.old ops.now (update_shows over.old ops.now)) }
    ensures same { over.new ≡ over.old }
{
    if over.begins(ops) {
        return Ok(Notices::new(alloc));
    }
    if over.pending().len() == 0 || over.apart(alloc, ops)? {
        return told(alloc, over.shown(), ops.as_slice());
    }
    let count = own_count(actor, ops.as_slice());
    let rest = behind(over.pending().as_slice(), count);
    let view = view_after(alloc, over.confirmed(), ops.as_slice(), rest)?;
    reset(alloc, view)
}

/// An overlay takes an update. Nothing changes where it is refused or out of memory.
fn update_over<T: Tree>(
    alloc: Global,
    over: &mut Overlay<T>,
    actor: u32,
    seq: u64,
    ops: &Ops,
) -> Result<Notices, OverFault>
    requires actor { over.old.actor ≡ actor }
    requires bound { seq ≤ max_whole }
    ensures ok { OnOk result (update_into over.old seq ops.now ≡ Ok over.new) }
    ensures kept { OnOk result (last_issued over.new ≡ last_issued over.old) }
    ensures notices { IfOk result (λ ns. notices_in ns ≡ notices_with over.old ops.now (shown_of over.new)) }
    ensures fault { IfErr result (IsFaultOf (update_into over.old seq ops.now)) }
    ensures err { OnErr result (over.new ≡ over.old) }
{
    over.last_issued();
    let notices = foreseen(alloc, over, actor, ops)?;
    over.update(alloc, seq, ops)?;
    Ok(notices)
}

/// An actor's first state. Makes an overlay, and refuses a clock that wasn't issued.
fn load_first<T: Tree>(
    alloc: Global,
    actor: u32,
    items: T,
    seq: u64,
    last: u64,
) -> Result<First<T>, OverFault>
    requires { seq ≤ max_whole }
    ensures ok { IfOk result (λ f. load_into (new_over empty_tree actor) seq last (T.nodes items) ≡ Ok f.over) }
    ensures kept { IfOk result (λ f. last_issued f.over ≡ 0) }
    ensures notices { IfOk result (λ f. notices_in f.notices ≡ Reset (view_of (shown_of f.over)) ∷ []) }
    ensures fault { IfErr result (IsFaultOf (load_into (new_over empty_tree actor) seq last (T.nodes items))) }
{
    let mut over = Overlay::new(alloc, T::empty(alloc)?, actor);
    let notices = load_over(alloc, &mut over, items, seq, last)?;
    Ok(First { over, notices })
}

impl<T: Tree> Editor<T> {
    /// Is told its session: its actor and key are kept, no presence key is unsent, and the others are forgotten. An
    /// actor other than the one that is kept is refused, with both, and nothing changes. Takes no memory.
    pub fn welcome(&mut self, actor: u32, key: u64) -> Result<(), OverFault>
        ensures good { OnOk result
            (welcomed_as self.old actor key self.old.session ≡ Ok (welcomed self.old actor key)) }
        ensures ok { OnOk result (self.new ≡ at_rest (welcomed self.old actor key).account) }
        ensures fault { IfErr result (IsFaultOf (welcomed_as self.old actor key self.old.session)) }
        ensures known { IfErr result (λ f. f ≡ OverFault.Account (actor_of self.old) actor) }
        ensures err { OnErr result (self.new ≡ self.old) }
    {
        if let Some(session) = self.session {
            if session.actor != actor {
                return Err(OverFault::Account(u64::from(session.actor), u64::from(actor)));
            }
        }
        self.session = Some(Resume { actor, key });
        self.unsent.clear();
        self.others.forget_all();
        Ok(())
    }

    /// Takes a state: its tree, the number of its last update, and the last clock of the actor in it. Answers the new
    /// view. Nothing changes where it is refused or out of memory.
    pub fn load(
        &mut self,
        alloc: Global,
        items: T,
        seq: u64,
        last: u64,
    ) -> Result<Notices, OverFault>
        requires session { is_some self.old.session ≡ true }
        requires bound { seq ≤ max_whole }
        ensures ok { IfOk result (λ ns. taken (load_of self.old seq last (Some (T.nodes items)))
            ≡ Ok (record { account = self.new; notices = notices_in ns })) }
        ensures fault { IfErr result (IsFaultOf (load_of self.old seq last (Some (T.nodes items)))) }
        ensures err { OnErr result (self.new ≡ self.old) }
    {
        let actor = self.actor();
        match &mut self.over {
            Some(over) => load_over(alloc, over, items, seq, last),
            None => {
                let First { over, notices } = load_first(alloc, actor, items, seq, last)?;
                self.over = Some(over);
                Ok(notices)
            }
        }
    }

    /// Takes an update, and answers what it changes in the view. Nothing changes where it is refused or out of memory.
    pub fn update(&mut self, alloc: Global, seq: u64, ops: &Ops) -> Result<Notices, OverFault>
        requires loaded { is_some self.old.confirmed ≡ true }
        requires bound { seq ≤ max_whole }
        ensures ok { IfOk result (λ ns. taken (update_numbered self.old seq ops.now)
            ≡ Ok (record { account = self.new; notices = notices_in ns })) }
        ensures fault { IfErr result (IsFaultOf (update_numbered self.old seq ops.now)) }
        ensures err { OnErr result (self.new ≡ self.old) }
    {
        let actor = self.actor();
        match &mut self.over {
            Some(over) => update_over(alloc, over, actor, seq, ops),
            None => unreachable!(),
        }
    }
}
