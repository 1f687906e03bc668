//! Edits.
ghost use Rattle.std.specs.Prelude.{◌≡◌, ◌≤◌, ◌<◌, ◌++◌, None, Ok, length, is_some, true, IfOk, IfErr, OnOk, OnErr};
ghost use Rattle.room_log.specs.Log.{bodies_of, ops_from};
ghost use Rattle.room_model.specs.Account.{actor, clocks, open_ops, shown};
ghost use Rattle.room_model.specs.Calls.{edit, changes_back, tree_or_bare};
ghost use Rattle.room_model.specs.Edits.{make};
ghost use Rattle.room_model.specs.Notices.{notices_of_all};
ghost use Rattle.room_notice.specs.Notices.{notices_in};
ghost use Rattle.room_props.specs.Edits.{HaveRoom, IsFaultOf, IsMade, clocks_of, edit_of};
ghost use Rattle.room_editor.specs.Editor.{done};
ghost use Rattle.room_editor.specs.Making.{made_by, put_edit, IsSizeFault};
ghost use Rattle.room_editor.specs.Sizes.{bytes_of, frame_bytes as frame_bytes_of};

use crate::editor::Editor;
use crate::putting::{issue, next_clock};
use crate::sizes::{frame_bytes, with_ops};
use crate::telling::{taking_back, told};
use room_json::NoMemory;
use room_list::make_list;
use room_msg::MAX_FRAME;
use room_nodes::{Changes, Op, Ops};
use room_notice::Notices;
use room_props::{Clocks, Edit, EditFault, Made, make_prop};
use room_tree::Tree;
use std::alloc::Global;

/// The operations that an edit makes on a tree, and the next numbers; or the first reason against it.
fn make<T: Tree>(alloc: Global, t: &T, c: &Clocks, e: &Edit) -> Result<Made, EditFault>
    requires { HaveRoom c.now }
    ensures ok { IfOk result (IsMade (make (T.nodes t.now) (clocks_of c.now) (edit_of e.now))) }
    ensures err { IfErr result (IsFaultOf (make (T.nodes t.now) (clocks_of c.now) (edit_of e.now))) }
{
    match e {
        Edit::Set {
            node: _,
            key: _,
            init: _,
        } => make_prop(alloc, t, c, e),
        Edit::Update { node: _, fields: _ } => make_prop(alloc, t, c, e),
        Edit::Remove { node: _, key: _ } => make_prop(alloc, t, c, e),
        _ => make_list(alloc, t, c, e),
    }
}

impl<T: Tree> Editor<T> {
    /// The next numbers.
    pub(crate) fn clocks(&self) -> Clocks
        ensures clocks { clocks_of result ≡ clocks self.now }
        ensures room { HaveRoom result }
    {
        let op = match &self.over {
            Some(over) => next_clock(over),
            None => 1,
        };
        Clocks {
            actor: self.actor(),
            node: self.node,
            op,
        }
    }

    /// What an edit makes, or why it is refused.
    fn made(&self, alloc: Global, e: &Edit) -> Result<Made, EditFault>
        ensures ok { IfOk result (IsMade (made_by self.now (edit_of e.now))) }
        ensures err { IfErr result (IsFaultOf (made_by self.now (edit_of e.now))) }
        ensures loaded { OnOk result (is_some self.now.confirmed ≡ true) }
        ensures runs { IfOk result (λ m.
            m.ops ≡ ops_from (actor self.now) (clocks self.now).op (bodies_of m.ops)) }
        ensures node { IfOk result (λ m. m.next.node ≤ 9007199254740992) }
    {
        let clocks = self.clocks();
        match self.shown() {
            Some(t) => make(alloc, t, &clocks, e),
            None => Err(EditFault::NotLoaded),
        }
    }

    /// The bytes that the open batch's operations take.
    fn open_bytes(&self) -> u64
        ensures { result ≡ bytes_of (open_ops self.now) }
    {
        self.gathering.bytes()
    }

    /// The bytes of the open batch's operations with those that were made, unless the frame is too large.
    #[tactic(auto, using(crate::proofs::Sized::bytes_append))]
    fn sized(&self, alloc: Global, made: &Made) -> Result<u64, EditFault>
        ensures ok { IfOk result (λ n. n ≡ bytes_of (open_ops self.now ++ made.now.ops)) }
        ensures small { OnOk result (frame_bytes_of (bytes_of (open_ops self.now ++ made.now.ops)) ≤ 1048576) }
        ensures err { IfErr result (IsSizeFault (frame_bytes_of (bytes_of (open_ops self.now ++ made.now.ops)))) }
    {
        let bytes = with_ops(alloc, self.open_bytes(), made.ops.as_slice())?;
        let size = frame_bytes(bytes)?;
        if size > MAX_FRAME {
            return Err(EditFault::BatchTooLarge(size));
        }
        Ok(bytes)
    }

    /// What operations change in the view.
    pub(crate) fn notices(&self, alloc: Global, ops: &[Op]) -> Result<Notices, NoMemory>
        requires { is_some self.now.confirmed ≡ true }
        ensures { IfOk result (λ ns. notices_in ns
            ≡ notices_of_all (tree_or_bare (shown self.now)) (bodies_of ops.now)) }
    {
        match self.shown() {
            Some(t) => told(alloc, t, ops),
            None => unreachable!(),
        }
    }

    /// What takes operations back.
    fn back(&self, alloc: Global, ops: &Ops) -> Result<Changes, NoMemory>
        requires { is_some self.now.confirmed ≡ true }
        ensures { IfOk result (λ cs. cs ≡ changes_back (tree_or_bare (shown self.now)) (bodies_of ops.now)) }
    {
        match self.shown() {
            Some(t) => taking_back(alloc, t, ops),
            None => unreachable!(),
        }
    }

    /// What was made goes into the open batch. A refused call changes nothing.
    fn put_open(
        &mut self,
        alloc: Global,
        made: &Made,
        back: Changes,
        bytes: u64,
    ) -> Result<(), NoMemory>
        requires loaded { is_some self.old.confirmed ≡ true }
        requires open { is_some self.old.batch ≡ true }
        requires runs { made.now.ops ≡ ops_from (actor self.old) (clocks self.old).op (bodies_of made.now.ops) }
        requires node { made.now.next.node ≤ 9007199254740992 }
        requires bytes { bytes ≡ bytes_of (open_ops self.old ++ made.now.ops) }
        ensures ok { OnOk result (self.new
            ≡ put_edit self.old (bodies_of made.now.ops) back made.now.next.node self.old.batch) }
        ensures err { OnErr result (self.new ≡ self.old) }
    {
        let Some(over) = &mut self.over else {
            unreachable!()
        };
        self.gathering.put_in(alloc, over, &made.ops, back, bytes)?;
        self.node = made.next.node;
        Ok(())
    }

    /// What was made is a batch of its own. A refused call changes nothing.
    fn put_alone(&mut self, alloc: Global, made: &Made, back: Changes) -> Result<(), NoMemory>
        requires loaded { is_some self.old.confirmed ≡ true }
        requires alone { self.old.batch ≡ None }
        requires some { 0 < length made.now.ops }
        requires runs { made.now.ops ≡ ops_from (actor self.old) (clocks self.old).op (bodies_of made.now.ops) }
        requires node { made.now.next.node ≤ 9007199254740992 }
        ensures ok { OnOk result (self.new
            ≡ put_edit self.old (bodies_of made.now.ops) back made.now.next.node self.old.batch) }
        ensures err { OnErr result (self.new ≡ self.old) }
    {
        let Some(over) = &mut self.over else {
            unreachable!()
        };
        let back = self.past.ready(back)?;
        issue(alloc, over, &made.ops)?;
        self.past.note(back);
        self.node = made.next.node;
        Ok(())
    }

    /// What was made goes into the open batch, or is a batch of its own. A refused call changes nothing.
    fn put(&mut self, alloc: Global, made: &Made, back: Changes, bytes: u64) -> Result<(), NoMemory>
        requires loaded { is_some self.old.confirmed ≡ true }
        requires runs { made.now.ops ≡ ops_from (actor self.old) (clocks self.old).op (bodies_of made.now.ops) }
        requires node { made.now.next.node ≤ 9007199254740992 }
        requires bytes { bytes ≡ bytes_of (open_ops self.old ++ made.now.ops) }
        ensures ok { OnOk result (self.new
            ≡ put_edit self.old (bodies_of made.now.ops) back made.now.next.node self.old.batch) }
        ensures err { OnErr result (self.new ≡ self.old) }
    {
        if self.is_open() {
            return self.put_open(alloc, made, back, bytes);
        }
        if made.ops.len() == 0 {
            return Ok(());
        }
        self.put_alone(alloc, made, back)
    }

    /// Makes an edit, and answers what it changes in the view. Outside a batch it is a batch of its own, and an entry
    /// of the history. A refused call changes nothing.
    pub fn edit(&mut self, alloc: Global, e: &Edit) -> Result<Notices, EditFault>
        ensures ok { IfOk result (λ ns. done (edit self.old (edit_of e.now))
            ≡ Ok (record { account = self.new; notices = notices_in ns })) }
        ensures fault { IfErr result (IsFaultOf (edit self.old (edit_of e.now))) }
        ensures err { OnErr result (self.new ≡ self.old) }
    {
        let made = self.made(alloc, e)?;
        let bytes = self.sized(alloc, &made)?;
        let notices = self.notices(alloc, made.ops.as_slice())?;
        let back = self.back(alloc, &made.ops)?;
        self.put(alloc, &made, back, bytes)?;
        Ok(notices)
    }
}
