//! What a client does with a frame of the server.
ghost use Rattle.std.specs.Prelude.{◌≡◌, ◌≤◌, ◌∷◌, [], true, All, Ok, Some, IfOk, IfErr, OnOk, OnErr};
ghost use Rattle.room_json.specs.Limits.{max_whole};
ghost use Rattle.room_msg.specs.Frame.{server_frame_in};
ghost use Rattle.room_msg.specs.Laws.{IsServed};
ghost use Rattle.room_model.specs.Receive.{frame, once_on, presence_taken, receive, receive_all, receive_part};
ghost use Rattle.room_model.specs.Receive.{receive_room, receive_state, receive_update, received, forgets, replying};
ghost use Rattle.room_model.specs.Account.{frame_of_full_to, is_on as is_on_of};
ghost use Rattle.room_model.specs.Receive.{load};
ghost use Rattle.room_client.specs.Faults.{IsFrameFault};
ghost use Rattle.room_client.specs.Given.{IsAfterFront, IsRefused, IsStopped, IsStoppedIn, given, given_of};

use crate::client::Client;
use crate::faults::FrameFault;
use crate::flushing::put_left;
use crate::frames::{of_fetch, of_full, of_full_to};
use crate::outcome::{Outcome, add, nothing};
use crate::parts::{Kept, Parts, other, tree_of};
use crate::stage::{Stage, is_dialled, is_on, is_synced};
use room_json::{Copied, Items, Json, Members, Seq, Text};
use room_msg::{ServerFrame, ServerMsg, read_server};
use room_nodes::Ops;
use room_tree::Tree;
use std::alloc::Global;

impl<T: Tree> Client<T> {
    /// Takes a frame, message by message, and answers what they give: frames that answer them, events, and what changed
    /// in the view. After an error the messages before the refused one stay taken, what they would have given is given
    /// up, and the client is as after `lost`.
    pub fn frame(&mut self, alloc: Global, text: &Text) -> Result<Outcome, FrameFault>
        ensures ok { IfOk result (λ o. given (frame self.old (server_frame_in text.now)) ≡ Ok (given_of self.new o)) }
        ensures err { IfErr result (λ f. IsRefused self.old (server_frame_in text.now) f self.new) }
    {
        let result = self.take_frame(alloc, text);
        if result.is_err() {
            self.lost(alloc);
        }
        result
    }

    /// The same, but for what is lost after an error.
    fn take_frame(&mut self, alloc: Global, text: &Text) -> Result<Outcome, FrameFault>
        ensures ok { IfOk result (λ o. given (frame self.old (server_frame_in text.now)) ≡ Ok (given_of self.new o)) }
        ensures err { IfErr result (λ f. IsStopped self.old (server_frame_in text.now) f self.new) }
    {
        match read_server(alloc, text)? {
            ServerFrame::Pong => Ok(nothing(alloc)),
            ServerFrame::Msgs(msgs) => self.receive_all(alloc, msgs.as_slice()),
        }
    }

    fn receive_all(&mut self, alloc: Global, msgs: &[ServerMsg]) -> Result<Outcome, FrameFault>
        requires { All IsServed msgs.now }
        ensures ok { IfOk result (λ o. given (receive_all self.old msgs.now) ≡ Ok (given_of self.new o)) }
        ensures err { IfErr result (λ f. IsStoppedIn self.old msgs.now f self.new) }
    {
        let mut so_far = nothing(alloc);
        for msg in msgs {
            let more = self.receive(alloc, msg)?;
            add(&mut so_far, more)?;
        }
        Ok(so_far)
    }

    /// Takes a message. A refused one changes nothing.
    fn receive(&mut self, alloc: Global, msg: &ServerMsg) -> Result<Outcome, FrameFault>
        requires { IsServed msg.now }
        ensures ok { IfOk result (λ o. given (receive self.old msg.now) ≡ Ok (given_of self.new o)) }
        ensures fault { IfErr result (IsFrameFault (receive self.old msg.now)) }
        ensures err { OnErr result (self.new ≡ self.old) }
    {
        match msg {
            ServerMsg::Presence {
                actor,
                target,
                patch,
            } => self.take_presence(alloc, *actor, *target, patch),
            ServerMsg::Joined(actor) => self.take_joined(alloc, *actor),
            ServerMsg::Left(actor) => self.take_left(alloc, *actor),
            ServerMsg::Broadcast { actor, event } => self.take_event(alloc, *actor, event),
            ServerMsg::RoomState { actor, key, .. } => self.take_session(alloc, *actor, *key),
            ServerMsg::State {
                seq,
                last,
                items,
                more,
            } => self.take_part(alloc, *seq, *last, items, *more),
            ServerMsg::Update { seq, ops } => self.take_update(alloc, *seq, ops),
        }
    }

    /// A presence of another: with a target a full one, else a patch.
    fn take_presence(
        &mut self,
        alloc: Global,
        actor: u32,
        target: Option<i64>,
        patch: &Members,
    ) -> Result<Outcome, FrameFault>
        ensures ok { IfOk result (λ o. given (once_on self.old 100
            (received (presence_taken self.old actor target patch.now))) ≡ Ok (given_of self.new o)) }
        ensures fault { IfErr result (IsFrameFault (once_on self.old 100
            (received (presence_taken self.old actor target patch.now)))) }
        ensures err { OnErr result (self.new ≡ self.old) }
    {
        if !is_on(self.stage) {
            return Err(FrameFault::Unexpected(100));
        }
        match target {
            Some(_) => self.editor.others_full(alloc, actor, patch)?,
            None => self.editor.others_patch(alloc, actor, patch)?,
        }
        Ok(nothing(alloc))
    }

    /// Another has joined: it is forgotten, and gets the whole presence.
    fn take_joined(&mut self, alloc: Global, actor: u32) -> Result<Outcome, FrameFault>
        ensures ok { IfOk result (λ o. given (once_on self.old 101
            (replying (forgets self.old actor) (frame_of_full_to actor self.old.me ∷ []))) ≡ Ok (given_of self.new o)) }
        ensures fault { IfErr result (IsFrameFault (once_on self.old 101
            (replying (forgets self.old actor) (frame_of_full_to actor self.old.me ∷ [])))) }
        ensures err { OnErr result (self.new ≡ self.old) }
    {
        if !is_on(self.stage) {
            return Err(FrameFault::Unexpected(101));
        }
        let mut outcome = nothing(alloc);
        outcome
            .replies
            .push(of_full_to(alloc, actor, self.editor.me())?)?;
        self.editor.forget(actor);
        Ok(outcome)
    }

    /// Another has left: it is forgotten.
    fn take_left(&mut self, alloc: Global, actor: u32) -> Result<Outcome, FrameFault>
        ensures ok { IfOk result (λ o. given (once_on self.old 102 (received (forgets self.old actor)))
            ≡ Ok (given_of self.new o)) }
        ensures fault { IfErr result (IsFrameFault (once_on self.old 102 (received (forgets self.old actor)))) }
        ensures err { OnErr result (self.new ≡ self.old) }
    {
        if !is_on(self.stage) {
            return Err(FrameFault::Unexpected(102));
        }
        self.editor.forget(actor);
        Ok(nothing(alloc))
    }

    /// An event of another, which is handed out.
    fn take_event(&mut self, alloc: Global, actor: u32, event: &Json) -> Result<Outcome, FrameFault>
        ensures ok { IfOk result (λ o. given (once_on self.old 103
            (record (received self.old) { events = (actor, event.now) ∷ [] })) ≡ Ok (given_of self.new o)) }
        ensures fault { IfErr result (IsFrameFault (once_on self.old 103
            (record (received self.old) { events = (actor, event.now) ∷ [] }))) }
        ensures err { OnErr result (self.new ≡ self.old) }
    {
        if !is_on(self.stage) {
            return Err(FrameFault::Unexpected(103));
        }
        let mut outcome = nothing(alloc);
        outcome.events.push((actor, event.copy(alloc)?))?;
        Ok(outcome)
    }

    /// The own session, told after a hello. It is answered by the whole presence to all, and by asking for the state.
    fn take_session(&mut self, alloc: Global, actor: u32, key: u64) -> Result<Outcome, FrameFault>
        requires { 1 ≤ actor }
        ensures ok { IfOk result (λ o. given (receive_room self.old actor key self.old.stage)
            ≡ Ok (given_of self.new o)) }
        ensures fault { IfErr result (IsFrameFault (receive_room self.old actor key self.old.stage)) }
        ensures err { OnErr result (self.new ≡ self.old) }
    {
        if !is_dialled(self.stage) {
            return Err(FrameFault::Unexpected(104));
        }
        let mut outcome = nothing(alloc);
        outcome.replies.push(of_full(alloc, self.editor.me())?)?;
        outcome.replies.push(of_fetch(alloc)?)?;
        self.editor.rests();
        self.editor.welcome(actor, key)?;
        self.stage = Stage::Connected;
        self.sent_to = 0;
        Ok(outcome)
    }

    /// A part of a state. With the last one the state is loaded.
    fn take_part(
        &mut self,
        alloc: Global,
        seq: u64,
        last: u64,
        items: &Items,
        more: bool,
    ) -> Result<Outcome, FrameFault>
        requires seq { seq ≤ max_whole }
        requires last { last ≤ max_whole }
        ensures ok { IfOk result (λ o. given (receive_state self.old seq last items.now more)
            ≡ Ok (given_of self.new o)) }
        ensures fault { IfErr result (IsFrameFault (receive_state self.old seq last items.now more)) }
        ensures err { OnErr result (self.new ≡ self.old) }
    {
        if !is_on(self.stage) {
            return Err(FrameFault::Unexpected(200));
        }
        if let Some((kept, got)) = other(self.parts.as_slice(), seq, last) {
            return Err(FrameFault::Parts(kept, got));
        }
        if more {
            self.parts.push(Kept {
                seq,
                last,
                items: items.copy(alloc)?,
            })?;
            return Ok(nothing(alloc));
        }
        match tree_of(alloc, self.parts.as_slice(), items)? {
            Some(tree) => self.load(alloc, seq, last, tree),
            None => Err(FrameFault::NotATree),
        }
    }

    /// A state. It is answered by the frames of all batches beyond the clock that is acknowledged by it.
    fn load(&mut self, alloc: Global, seq: u64, last: u64, tree: T) -> Result<Outcome, FrameFault>
        requires on { is_on_of self.old.stage ≡ true }
        requires seq { seq ≤ max_whole }
        requires last { last ≤ max_whole }
        ensures ok { IfOk result (λ o. given (load self.old seq last (Some (T.nodes tree)))
            ≡ Ok (given_of self.new o)) }
        ensures fault { IfErr result (IsFrameFault (load self.old seq last (Some (T.nodes tree)))) }
        ensures err { OnErr result (self.new ≡ self.old) }
    {
        self.editor.rests();
        let mut outcome = nothing(alloc);
        put_left(alloc, &mut outcome.replies, &self.editor, last)?;
        outcome.notices = self.editor.load(alloc, tree, seq, last)?;
        self.editor.rests();
        self.stage = Stage::Synced;
        self.sent_to = self.editor.last_issued();
        self.parts = Parts::new(alloc);
        Ok(outcome)
    }

    /// An update.
    fn take_update(&mut self, alloc: Global, seq: u64, ops: &Ops) -> Result<Outcome, FrameFault>
        requires { seq ≤ max_whole }
        ensures ok { IfOk result (λ o. given (receive_update self.old seq ops.now self.old.stage)
            ≡ Ok (given_of self.new o)) }
        ensures fault { IfErr result (IsFrameFault (receive_update self.old seq ops.now self.old.stage)) }
        ensures err { OnErr result (self.new ≡ self.old) }
    {
        if !is_synced(self.stage) || self.parts.len() > 0 {
            return Err(FrameFault::Unexpected(201));
        }
        let mut outcome = nothing(alloc);
        self.editor.rests();
        outcome.notices = self.editor.update(alloc, seq, ops)?;
        self.editor.rests();
        Ok(outcome)
    }
}
